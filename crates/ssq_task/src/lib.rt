//! The tasks of an epoch after its map tasks, as owned values: the reduce task takes the rows of a partition to those that the epoch
//! shows, and what the partition keeps to the epoch's version, whose delta it writes aside and seals; the out task writes the rows and the
//! epoch's commit aside and seals both.
//!
//! A result carries the fields of its own task. The definitions are in `specs/`: `Reducing` says what a reduce task brings, `Committing`
//! what a commit tells, `Gathering` what an out task does.
#![tactic(auto)]

mod commit;
mod late;
mod lists;
mod out;
mod partition;
mod stages;
mod step;
mod version;

pub use commit::seen_from;
pub use out::{GatherFault, Gathered, OutTask, gather};
pub use partition::{Held, ReduceFault, ReduceTask, Reduced, ReducedRows, State, reduce};
pub use stages::{Aside, Remnant, SealedEpoch, Stages};
