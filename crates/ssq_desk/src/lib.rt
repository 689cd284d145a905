//! The coordinator's desk: it hands out the tasks of a round, takes their results and publishes them, one epoch after another.
//!
//! Beneath it lies the ledger, whose history says what was done to the disk. The desk adds what the tasks own: logs, rows and
//! files aside. The definitions are in `specs/`: `Round` says what a desk was made of, `Contents` what it holds, `Whole` what is so of every
//! desk, `First` what a round begins with, `Room` and `Making` what is made for an epoch before its plan is published, `Tasks` what it hands out,
//! `Results` what it takes back, `Published` what becomes of the rows of an epoch,
//! `Upkeep` what the snapshots are that it hands out and takes back, and `Closing` what is given back when the round ends.
#![tactic(auto)]

mod calls;
mod claims;
mod closed;
mod desk;
mod due;
mod first;
mod hand;
mod keys;
mod laws;
mod make;
mod new;
mod outs;
mod plan;
mod reduced;
mod reports;
mod room;
mod round;
mod task;
mod told;
mod upkeep;

pub use closed::{Closed, NextRound};
pub use desk::Desk;
pub use round::Round;
pub use task::Task;
pub use told::Told;
pub use upkeep::{UpkeepDone, UpkeepTask, keep};
