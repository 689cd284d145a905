//! From the bytes of a query file to the query as it is run, or the one refusal.
//!
//! The definitions stand in `specs/`: `Accepting` says which file is accepted, as which query, and when each refusal comes;
//! `Refusals` how a refusal is told.
#![tactic(auto)]

mod refusal;
mod steps;

pub use refusal::Refusal;
pub use steps::{Accepted, accept, files_have_one_answer};
