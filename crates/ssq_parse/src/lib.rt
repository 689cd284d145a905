//! The reader of query files.
//!
//! [`parse`] reads a file in one pass, or tells its first fault: the place, in bytes, and the cause. Its rules stand in
//! `specs/`, one definition for each line of the grammar.
#![tactic(auto)]

mod expr;
mod fault;
mod file;
mod operators;
mod query;
mod reader;
mod tree;

pub use expr::expressions_are_written;
pub use fault::{ParseCause, ParseFault};
pub use file::{parse, text_is_parsed};
