//! What stands at the front of a text.

ghost use Rattle.std.specs.Prelude.{◌≡◌, ℕ, ◌<◌, ◌≤◌, length, slice_index, true, drop, IfSome};
ghost use Rattle.std.specs.List.{prefix_len};
ghost use Rattle.std.specs.Char.{is_ascii_digit};
ghost use Rattle.std.specs.Option.{option_map};
ghost use Rattle.std.specs.Str.{IsCharBoundary};
ghost use Rattle.ssq_lex.specs.Cut as spec;
ghost use Rattle.ssq_lex.specs.Answer.{head, symbol_head, IsShort, Cuts, Finds};
ghost use Rattle.ssq_lex.specs.Lexeme.{lexeme};
ghost use Rattle.ssq_lex.specs.Spelling.{keyword_of, long_symbol, short_symbol};

use crate::fault::LexCause;
use crate::keyword::keyword_of;
use crate::symbol::{Symbol, long_symbol, short_symbol};
use crate::token::Kind;

/// What stands at the front of a text, how many bytes it takes, and the text after it.
#[derive(Clone, Copy)]
pub(crate) struct Front<'a> {
    /// Blanks and comments are no tokens.
    pub kind: Option<Kind<'a>>,
    pub len: usize,
    pub rest: &'a str,
}

fn is_blank(b: u8) -> bool
    ensures { result ≡ spec.is_blank b }
{
    matches!(b, b' ' | b'\t' | b'\r' | b'\n')
}

fn begins_name(b: u8) -> bool
    ensures { result ≡ spec.begins_name b }
{
    b.is_ascii_alphabetic() || b == b'_'
}

fn is_in_name(b: u8) -> bool
    ensures { result ≡ spec.is_in_name b }
{
    b.is_ascii_alphanumeric() || b == b'_'
}

fn name_len(bytes: &[u8]) -> usize
    ensures { result ≡ prefix_len spec.is_in_name bytes.now }
{
    bytes.iter().take_while(|b| is_in_name(**b)).count()
}

fn digits_len(bytes: &[u8]) -> usize
    ensures { result ≡ prefix_len is_ascii_digit bytes.now }
{
    bytes.iter().take_while(|b| b.is_ascii_digit()).count()
}

fn line_len(bytes: &[u8]) -> usize
    ensures { result ≡ prefix_len spec.is_in_line bytes.now }
{
    bytes.iter().take_while(|b| **b != b'\n').count()
}

/// The place of the quote that ends a text, after its opening quote.
#[tactic(auto, using(crate::proofs::Closing::closing_steps))]
fn closing(bytes: &[u8]) -> Option<usize>
    ensures value { result ≡ spec.closing bytes.now }
    ensures quote { IfSome result (λ at. (at < length bytes.now) × (slice_index bytes.now at ≡ 39)) }
{
    let mut at = 0;
    while at < bytes.len() {
        if bytes[at] != b'\'' {
            at += 1;
        } else if at + 1 < bytes.len() && bytes[at + 1] == b'\'' {
            at += 2;
        } else {
            return Some(at);
        }
    }
    None
}

fn byte(bytes: &[u8], at: usize) -> u8
    ensures { result ≡ slice_index bytes.now at }
{
    bytes.get(at).copied().unwrap_or(0)
}

/// The first bytes of a text, which are this token or none.
fn cut<'a>(text: &'a str, len: usize, kind: Option<Kind<'a>>) -> Front<'a>
    requires some { 0 < len }
    requires boundary { IsCharBoundary text.now len }
    ensures said { head result ≡ record { said = option_map lexeme kind.entry; len = len } }
    ensures cut { Cuts result text.now }
{
    let (_, rest) = text.split_at(len);
    Front { kind, len, rest }
}

/// What a word is.
fn word_kind(word: &str) -> Kind<'_>
    ensures { lexeme result ≡ spec.word_as word.now (keyword_of word.now) }
{
    match keyword_of(word) {
        Some(keyword) => Kind::Keyword(keyword),
        None => Kind::Name(word),
    }
}

/// The keyword or the name that a text begins with.
#[tactic(auto, unfolding(crate::specs::Cut::word_at))]
fn word(text: &str) -> Front<'_>
    requires { spec.begins_name (slice_index text.now 0) ≡ true }
    ensures said { head result ≡ spec.word_at text.now }
    ensures cut { Cuts result text.now }
{
    let len = name_len(text.as_bytes());
    let (word, _) = text.split_at(len);
    cut(text, len, Some(word_kind(word)))
}

/// The value of a number.
fn value_of(digits: &str) -> Result<i64, LexCause>
    requires some { 0 < length digits.now }
    requires digits { (i : ℕ) → i < length digits.now → is_ascii_digit (slice_index digits.now i) ≡ true }
    ensures { result ≡ spec.value_of digits.now }
{
    match digits.parse() {
        Ok(value) => Ok(value),
        Err(_) => Err(LexCause::BadNumber),
    }
}

/// The number that a text begins with.
#[tactic(auto, unfolding(crate::specs::Cut::number_at))]
fn number(text: &str) -> Result<Front<'_>, LexCause>
    requires { is_ascii_digit (slice_index text.now 0) ≡ true }
    ensures { Finds result text.now (spec.number_at text.now) }
{
    let len = digits_len(text.as_bytes());
    let (digits, _) = text.split_at(len);
    let value = value_of(digits)?;
    Ok(cut(text, len, Some(Kind::Number(value))))
}

/// The quoted text that a text begins with.
#[tactic(auto, unfolding(crate::specs::Cut::text_at))]
fn quoted(text: &str) -> Result<Front<'_>, LexCause>
    requires { slice_index text.now 0 ≡ 39 }
    ensures { Finds result text.now (spec.text_at text.now) }
{
    let (_, inner) = text.split_at(1);
    match closing(inner.as_bytes()) {
        Some(len) => {
            let (content, _) = inner.split_at(len);
            Ok(cut(text, len + 2, Some(Kind::Text(content))))
        }
        None => Err(LexCause::Unclosed),
    }
}

/// The symbol that two characters begin with, the longer one where there are two, and its length.
fn longest(first: u8, second: u8) -> Option<(Symbol, usize)>
    ensures found { spec.symbol_of (long_symbol first second) (short_symbol first) ≡ symbol_head result }
    ensures within { IfSome result (λ found. IsShort first second found.1) }
{
    if let Some(symbol) = long_symbol(first, second) {
        return Some((symbol, 2));
    }
    let symbol = short_symbol(first)?;
    Some((symbol, 1))
}

/// The symbol that a text begins with.
#[tactic(auto, unfolding(crate::specs::Cut::symbol_at))]
fn symbol(text: &str) -> Result<Front<'_>, LexCause>
    ensures { Finds result text.now (spec.symbol_at text.now) }
{
    let bytes = text.as_bytes();
    let Some((symbol, len)) = longest(byte(bytes, 0), byte(bytes, 1)) else {
        return Err(LexCause::BadChar);
    };
    Ok(cut(text, len, Some(Kind::Symbol(symbol))))
}

/// What stands at the front of a text.
#[tactic(auto, unfolding(crate::specs::Cut::front))]
pub(crate) fn front_of(text: &str) -> Result<Front<'_>, LexCause>
    requires { 0 < length text.now }
    ensures { Finds result text.now (spec.front text.now) }
{
    let bytes = text.as_bytes();
    let first = bytes[0];
    if is_blank(first) {
        return Ok(cut(text, 1, None));
    }
    if first == b'-' && byte(bytes, 1) == b'-' {
        return Ok(cut(text, line_len(bytes), None));
    }
    if begins_name(first) {
        return Ok(word(text));
    }
    if first.is_ascii_digit() {
        return number(text);
    }
    if first == b'\'' {
        return quoted(text);
    }
    symbol(text)
}
