//! The job of a query over its logs: what the files of its checkpoint hold, epoch by epoch.
//!
//! The definitions are in `specs/`: `Setting` is a query with how its work is divided, over its logs; `course_of` what its files hold
//! for some cuts of these, those of the state included; `job_of` that, with which cut may follow; `HasGrown` that the logs have more lines
//! after. Their laws are the contracts of functions that do nothing.
#![tactic(auto)]

mod law;

pub use law::{
    checkpoints_stand_as_logs_grow, files_hold_states, files_say_their_course, jobs_are_causal,
    joined_rows_are_wide, partitions_show_rows, plans_can_be_written,
};
