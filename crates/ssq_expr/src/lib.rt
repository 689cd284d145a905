//! Evaluation of typed expressions on rows and on groups.
//!
//! What an expression is on a row, and on a group with its aggregates, is defined by `ssq_shape`. Values are borrowed
//! from the row and from the query until an operator makes a new one, so that a condition copies no text.
#![tactic(auto)]

mod evaluate;
mod fault;
mod operands;
mod operators;
mod plain;

pub use evaluate::{eval, eval_group};
pub use fault::EvalFault;
pub use plain::{passes, show};
