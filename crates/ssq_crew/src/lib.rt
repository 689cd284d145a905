//! A phase: tasks that own what they work on, each in a place where its result lies afterwards.
//!
//! The definitions are in `specs/Places`: `IsRun` says what becomes of one place, `AreRun` of all of a phase. Tasks run one after the
//! other, in order; a crew of threads has the same contract.
#![tactic(auto)]

mod phase;
mod place;

pub use phase::run_phase;
pub use place::{Place, Task};
