//! A round on one thread: it does what the desk has ready, until nothing is.
//!
//! The definitions are in `specs/`: `Driven` says what a turn and all turns do to a desk, and for which causes it stops, `Good` that no line
//! of an epoch that is committed is a fault, `Rounds` what a round begins on, what it plans and tells, and why it stops.
#![tactic(auto)]

mod keep;
mod round;
mod turn;

pub use round::{Stopped, Went, run_round};
