//! What the job of any query that runs owes the opening of its checkpoint and the desk: each fact once, as the contract of a function that
//! does nothing.
//!
//! `specs/Setting.antt` says which queries run, and which setting a query and the lines that were found of its logs have;
//! `specs/Laws.antt` has the facts of jobs, `Opening` those of a checkpoint that was opened, `Rows` those of an epoch's tasks, and
//! `Partitions` those of a partition from epoch to epoch.
#![tactic(auto)]

mod cuts;
mod epoch;
mod job;
mod opening;
mod partition;
mod tasks;
mod times;

pub use cuts::plans_say_their_cuts;
pub use epoch::tasks_bring_the_epoch;
pub use job::job_is_wanted;
pub use opening::round_begins_as_found;
pub use partition::{partitions_continue, partitions_overflow};
pub use tasks::tasks_have_terms;
pub use times::times_are_of_lines;
