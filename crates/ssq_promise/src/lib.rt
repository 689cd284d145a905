//! A whole run as one list of events of the machine, round after round, and what that promises: each image stands, what was settled
//! stays, but for files of the state, and so does each epoch that was told.
//!
//! The definitions are in `specs/Run`. Their laws are the contracts of functions that do nothing.
#![tactic(auto)]

mod law;

pub use law::{rounds, run, states};
