//! Prints words with one space between two of them, but where none stands.

ghost use Rattle.std.specs.Prelude.{◌≡◌, true, [], ◌∷◌, ◌++◌, IfOk, OnOk, is_ok, string_bytes, if◌then◌else◌};
ghost use Rattle.ssq_lex.specs.Lexeme.{keyword, name, number, quoted, symbol};
ghost use Rattle.ssq_lex.specs.Printing as spec;
ghost use Rattle.ssq_lex.specs.Printing.{Adds};
ghost use Rattle.ssq_lex.specs.Sayable.{PrintedIsRead, PrintedIsText};

use crate::keyword::Keyword;
use crate::quoting::push_quoted;
use crate::symbol::Symbol;
use std::alloc::{AllocError, Global};
use std::fmt::Write;
use std::marker::Model;

/// How the last word of a text stands to the next one.
#[derive(Clone, Copy)]
pub enum End {
    /// At the start, after `(` and after `.`: no space stands before the next word.
    Joined,
    /// After WINDOW, COUNT, SUM, MIN and MAX: no space stands before a `(`.
    Applied,
    /// After every other word: a space stands, but before `)`, `,`, `;` and `.`.
    Apart,
}

/// A text that is printed word by word.
///
/// One space stands between two words, but none after `(`, none around `.`, none before `)`, `,` and `;`, and none
/// between WINDOW, COUNT, SUM, MIN or MAX and a `(`. It remembers where memory ran out, and tells it at the end.
#[derive(Drop)]
pub struct Printer {
    out: String,
    last: End,
    is_whole: bool,
}

impl Model for Printer {
    ghost use Rattle.std.specs.Prelude.{string_bytes};
    ghost use Rattle.ssq_lex.specs.Printing.{Print};

    ghost Value = { Print };

    ghost view = { λ p. record { printed = record { text = string_bytes p.out; last = p.last }; is_whole = p.is_whole } };
}

fn is_function(word: Keyword) -> bool
    ensures { result ≡ spec.is_function word }
{
    match word {
        Keyword::Window | Keyword::Count | Keyword::Sum | Keyword::Min | Keyword::Max => true,
        _ => false,
    }
}

fn keyword_end(word: Keyword) -> End
    ensures { result ≡ spec.keyword_end word }
{
    if is_function(word) {
        End::Applied
    } else {
        End::Apart
    }
}

fn symbol_end(word: Symbol) -> End
    ensures { result ≡ spec.symbol_end word }
{
    match word {
        Symbol::LeftParen | Symbol::Dot => End::Joined,
        _ => End::Apart,
    }
}

fn closes(word: Symbol) -> bool
    ensures { result ≡ spec.closes word }
{
    match word {
        Symbol::RightParen | Symbol::Comma | Symbol::Semicolon | Symbol::Dot => true,
        _ => false,
    }
}

/// Whether a symbol stands at once after the last word.
fn symbol_touches(last: End, word: Symbol) -> bool
    ensures { result ≡ spec.symbol_touches last word }
{
    match last {
        End::Joined => true,
        End::Applied => word == Symbol::LeftParen || closes(word),
        End::Apart => closes(word),
    }
}

fn is_joined(last: End) -> bool
    ensures { result ≡ spec.is_joined last }
{
    matches!(last, End::Joined)
}

/// Adds the space before a word, where one stands.
fn push_lead(out: &mut String, touches: bool) -> Result<(), AllocError>
    ensures { OnOk result (string_bytes out.new ≡ string_bytes out.old ++ (if touches then [] else 32 ∷ [])) }
{
    if touches {
        return Ok(());
    }
    out.push_str(" ")?;
    Ok(())
}

/// Adds a text after its space, where one stands.
fn push_word(out: &mut String, touches: bool, word: &str) -> Result<(), AllocError>
    ensures { OnOk result (string_bytes out.new ≡ string_bytes out.old ++ (if touches then [] else 32 ∷ []) ++ word.now) }
{
    push_lead(out, touches)?;
    out.push_str(word)
}

/// Adds a number after its space, where one stands.
fn push_number(out: &mut String, touches: bool, value: i64) -> Result<(), AllocError>
    ensures { OnOk result (string_bytes out.new
        ≡ string_bytes out.old ++ (if touches then [] else 32 ∷ []) ++ spec.word_text (number value)) }
{
    push_lead(out, touches)?;
    write!(out, "{value}")?;
    Ok(())
}

/// Adds a text between quotes after its space, where one stands.
fn push_text(out: &mut String, touches: bool, text: &str) -> Result<(), AllocError>
    ensures { OnOk result (string_bytes out.new
        ≡ string_bytes out.old ++ (if touches then [] else 32 ∷ []) ++ spec.word_text (quoted text.now)) }
{
    push_lead(out, touches)?;
    push_quoted(out, text)
}

impl Printer {
    /// A text with no word yet.
    pub fn new(alloc: Global) -> Printer
        ensures { result ≡ spec.unprinted }
    {
        Printer {
            out: String::new(alloc),
            last: End::Joined,
            is_whole: true,
        }
    }

    /// The text of the words that were added, if memory served for them all.
    pub fn into_string(self) -> Result<String, AllocError>
        ensures { IfOk result (λ text. (self.is_whole ≡ true) × (string_bytes text ≡ self.printed.text)) }
    {
        let Printer { out, is_whole, .. } = self;
        if is_whole { Ok(out) } else { Err(AllocError) }
    }

    /// Notes how the last word ends, and whether memory served for it.
    fn ended(&mut self, added: Result<(), AllocError>, last: End)
        ensures { self.new ≡ spec.ended self.old (is_ok added) last }
    {
        self.is_whole = self.is_whole && added.is_ok();
        self.last = last;
    }

    /// Adds a keyword, in capitals.
    pub fn keyword(&mut self, word: Keyword)
        ensures { Adds self.old (keyword word ∷ []) self.new }
    {
        let added = push_word(&mut self.out, is_joined(self.last), word.text());
        self.ended(added, keyword_end(word));
    }

    pub fn name(&mut self, text: &str)
        ensures { Adds self.old (name text.now ∷ []) self.new }
    {
        let added = push_word(&mut self.out, is_joined(self.last), text);
        self.ended(added, End::Apart);
    }

    /// Adds a number by its value, with no zeros before it.
    pub fn number(&mut self, value: i64)
        ensures { Adds self.old (number value ∷ []) self.new }
    {
        let added = push_number(&mut self.out, is_joined(self.last), value);
        self.ended(added, End::Apart);
    }

    /// Adds a text between quotes, with each quote in it twice.
    pub fn quoted(&mut self, text: &str)
        ensures { Adds self.old (quoted text.now ∷ []) self.new }
    {
        let added = push_text(&mut self.out, is_joined(self.last), text);
        self.ended(added, End::Apart);
    }

    pub fn symbol(&mut self, word: Symbol)
        ensures { Adds self.old (symbol word ∷ []) self.new }
    {
        let added = push_word(&mut self.out, symbol_touches(self.last, word), word.text());
        self.ended(added, symbol_end(word));
    }
}

/// What is printed is read again: the text of words that can be said is cut into just these words, and is UTF-8.
pub fn printed_is_read()
    ensures read { PrintedIsRead }
    ensures utf8 { PrintedIsText }
{}
