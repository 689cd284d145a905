//! What a text is cut into.

use crate::{Keyword, Symbol};

/// What a token is. Names and texts are parts of the text that was read.
#[derive(Clone, Copy, Debug)]
pub enum Kind<'a> {
    Keyword(Keyword),
    /// Letters, digits and `_`, beginning with no digit, that are no keyword.
    Name(&'a str),
    /// A number from 0 to 9223372036854775807.
    Number(i64),
    /// What stands between the quotes, where two quotes stand for one: see [`unquoted`].
    Text(&'a str),
    Symbol(Symbol),
}

/// A token, and the bytes from `start` up to `end` that it takes.
#[derive(Clone, Copy)]
pub struct Token<'a> {
    pub start: usize,
    pub end: usize,
    pub kind: Kind<'a>,
}
