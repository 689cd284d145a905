//! The tokens of a query file: keywords, names, numbers, quoted texts and symbols, each with its place.
//!
//! [`tokens`] reads a whole text in one pass, and [`Printer`] prints words as a text that is read as these words
//! again. Their rules stand in `specs/`, by cases on the bytes and on the words.
#![tactic(auto)]

mod fault;
mod front;
mod keyword;
mod lexer;
mod printer;
mod quoting;
mod symbol;
mod token;

pub use fault::{LexCause, LexFault, Refusal};
pub use keyword::{Keyword, keywords_are_read};
pub use lexer::{Lexical, tokens, tokens_are_sayable, tokens_to_fault};
pub use printer::{Printer, printed_is_read};
pub use quoting::{push_quoted, unquoted};
pub use symbol::Symbol;
pub use token::{Kind, Token};
