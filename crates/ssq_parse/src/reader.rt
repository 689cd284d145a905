//! Takes tokens from the front of those of a query.

ghost use Rattle.std.specs.Prelude.{◌≡◌, ◌≤◌, [], ◌∷◌, length, map, take, drop, MatchOption, is_some};
ghost use Rattle.std.specs.List.{prefix_len};
ghost use Rattle.ssq_lex.specs.Lexeme.{lexeme, lexed};
ghost use Rattle.ssq_parse.specs.Reading.{Reads, Makes, place, seen, sees, behind, keyword_at, symbol_at, is_keyword, is_name, is_symbol, name_at, quoted_at, number_at, span_at, moment_at, stop_at, first_operator};
ghost use Rattle.ssq_parse.specs.Operators as operators;

use crate::fault::{ParseCause, Stop};
use crate::operators::{Level, is_keyword, is_name, is_prefix, is_symbol, operator_of};
use ssq_ast::{BinaryOp, Ident, Moment, Span, UnaryOp};
use ssq_lex::{Keyword, Kind, Symbol, Token, unquoted};
use ssq_time::{read_span, read_time};
use ssq_value::Text;
use std::alloc::Global;
use std::marker::Model;

/// How many operators stand before an operand.
fn prefix_count(op: UnaryOp, tokens: &[Token<'_>]) -> usize
    ensures count { result ≡ prefix_len (λ token. operators.is_prefix op (lexeme token.kind)) tokens.now }
    ensures within { result ≤ length tokens.now }
{
    tokens
        .iter()
        .take_while(|token| is_prefix(op, token.kind))
        .count()
}

/// The tokens that are left. Contracts see what they say, and where.
#[derive(Drop)]
pub(crate) struct Reader<'a> {
    rest: &'a [Token<'a>],
}

impl<'a> Model for Reader<'a> {
    ghost use Rattle.std.specs.Prelude.{List, map};
    ghost use Rattle.ssq_lex.specs.Lexeme.{Lexed, lexed};

    ghost Value = { List Lexed };

    ghost view = { λ r. map lexed r.rest.now };
}

impl<'a> Reader<'a> {
    /// In front of all these tokens.
    pub fn new(tokens: &'a [Token<'a>]) -> Reader<'a>
        ensures { result ≡ map lexed tokens.now }
    {
        Reader { rest: tokens }
    }

    /// Takes the next token.
    pub fn next(&mut self) -> Option<Token<'a>>
        ensures { MatchOption result ((self.old ≡ []) × (self.new ≡ [])) (λ token. self.old ≡ lexed token ∷ self.new) }
    {
        match self.rest {
            [first, rest @ ..] => {
                self.rest = rest;
                Some(*first)
            }
            [] => None,
        }
    }

    /// How many tokens are left.
    pub fn len(&self) -> usize
        ensures { result ≡ length self.now }
    {
        self.rest.len()
    }

    /// The place of the next token.
    pub fn place(&self) -> Option<usize>
        ensures { result ≡ place self.now }
    {
        match self.rest.first() {
            Some(token) => Some(token.start),
            None => None,
        }
    }

    /// That the next token is none that may stand there.
    pub fn expected(&self) -> Stop
        ensures { result ≡ stop_at (place self.now) ParseCause.Expected }
    {
        Stop::Refused {
            at: self.place(),
            cause: ParseCause::Expected,
        }
    }

    /// Whether this keyword is next.
    pub fn sees_keyword(&self, wanted: Keyword) -> bool
        ensures { result ≡ sees (is_keyword wanted) self.now }
    {
        match self.rest.first() {
            Some(token) => is_keyword(wanted, token.kind),
            None => false,
        }
    }

    /// Whether a name is next.
    pub fn sees_name(&self) -> bool
        ensures { result ≡ sees is_name self.now }
    {
        match self.rest.first() {
            Some(token) => is_name(token.kind),
            None => false,
        }
    }

    /// Takes a keyword, if it is next, and tells its place.
    pub fn eat_keyword(&mut self, wanted: Keyword) -> Option<usize>
        ensures found { result ≡ seen (is_keyword wanted) self.old }
        ensures after { self.new ≡ behind result self.old }
    {
        let [first, rest @ ..] = self.rest else {
            return None;
        };
        if !is_keyword(wanted, first.kind) {
            return None;
        }
        self.rest = rest;
        Some(first.start)
    }

    /// Takes a symbol, if it is next, and tells its place.
    pub fn eat_symbol(&mut self, wanted: Symbol) -> Option<usize>
        ensures found { result ≡ seen (is_symbol wanted) self.old }
        ensures after { self.new ≡ behind result self.old }
    {
        let [first, rest @ ..] = self.rest else {
            return None;
        };
        if !is_symbol(wanted, first.kind) {
            return None;
        }
        self.rest = rest;
        Some(first.start)
    }

    /// Takes an operator of this level, if one is next, and tells its place.
    pub fn eat_operator(&mut self, level: Level) -> Option<(BinaryOp, usize)>
        ensures found { result ≡ first_operator level self.old }
        ensures after { self.new ≡ behind result self.old }
    {
        let [first, rest @ ..] = self.rest else {
            return None;
        };
        let op = operator_of(level, first.kind)?;
        self.rest = rest;
        Some((op, first.start))
    }

    /// Takes all operators that stand before the next operand.
    pub fn prefixes(&mut self, op: UnaryOp) -> &'a [Token<'a>]
        ensures taken { map lexed result.now ≡ take (prefix_len (operators.prefixes op) self.old) self.old }
        ensures after { self.new ≡ drop (prefix_len (operators.prefixes op) self.old) self.old }
    {
        let tokens = self.rest;
        let count = prefix_count(op, tokens);
        self.rest = &tokens[count..];
        &tokens[..count]
    }

    /// Takes a keyword that has to be next, and tells its place.
    #[tactic(auto, unfolding(crate::specs::Reading::keyword_at))]
    pub fn keyword(&mut self, wanted: Keyword) -> Result<usize, Stop>
        ensures { Reads (keyword_at wanted self.old) result self.new }
    {
        match self.eat_keyword(wanted) {
            Some(at) => Ok(at),
            None => Err(self.expected()),
        }
    }

    /// Takes a symbol that has to be next, and tells its place.
    #[tactic(auto, unfolding(crate::specs::Reading::symbol_at))]
    pub fn symbol(&mut self, wanted: Symbol) -> Result<usize, Stop>
        ensures { Reads (symbol_at wanted self.old) result self.new }
    {
        match self.eat_symbol(wanted) {
            Some(at) => Ok(at),
            None => Err(self.expected()),
        }
    }

    /// Takes a name that has to be next.
    #[tactic(auto, unfolding(crate::specs::Reading::name_at))]
    pub fn name(&mut self, alloc: Global) -> Result<Ident, Stop>
        ensures { Reads (name_at self.old) result self.new }
    {
        let expected = self.expected();
        match self.next() {
            Some(
                Token {
                    start,
                    kind: Kind::Name(name),
                    ..
                },
            ) => Ok(Ident {
                text: Text::from_str(alloc, name)?,
                at: start,
            }),
            _ => Err(expected),
        }
    }

    /// Takes a quoted text, and gives its place and what it says.
    #[tactic(auto, unfolding(crate::specs::Reading::quoted_at))]
    pub fn quoted(&mut self, alloc: Global) -> Result<(usize, Text), Stop>
        ensures { Reads (quoted_at self.old) result self.new }
    {
        let expected = self.expected();
        match self.next() {
            Some(
                Token {
                    start,
                    kind: Kind::Text(content),
                    ..
                },
            ) => Ok((start, Text::from_string(unquoted(alloc, content)?))),
            _ => Err(expected),
        }
    }

    /// Takes a number that has to be next.
    #[tactic(auto, unfolding(crate::specs::Reading::number_at))]
    pub fn number(&mut self) -> Result<i64, Stop>
        ensures { Reads (number_at self.old) result self.new }
    {
        let expected = self.expected();
        match self.next() {
            Some(
                Token {
                    kind: Kind::Number(number),
                    ..
                },
            ) => Ok(number),
            _ => Err(expected),
        }
    }

    /// Takes a text that is a span of time.
    #[tactic(auto, unfolding(crate::specs::Reading::span_at))]
    pub fn span(&mut self, alloc: Global) -> Result<Span, Stop>
        ensures { Reads (span_at self.old) result self.new }
    {
        let (at, text) = self.quoted(alloc)?;
        match read_span(text.as_bytes()) {
            Some(micros) => Ok(Span { text, micros }),
            None => Err(bad_text(at)),
        }
    }

    /// Takes a text that is a moment.
    #[tactic(auto, unfolding(crate::specs::Reading::moment_at))]
    pub fn moment(&mut self, alloc: Global) -> Result<Moment, Stop>
        ensures { Reads (moment_at self.old) result self.new }
    {
        let (at, text) = self.quoted(alloc)?;
        match read_time(text.as_bytes()) {
            Some(micros) => Ok(Moment { text, micros }),
            None => Err(bad_text(at)),
        }
    }
}

fn bad_text(at: usize) -> Stop
    ensures { result ≡ stop_at (Some at) ParseCause.BadText }
{
    Stop::Refused {
        at: Some(at),
        cause: ParseCause::BadText,
    }
}
