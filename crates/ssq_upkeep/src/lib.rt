//! Upkeep of the state by names and numbers: which snapshot is due, and which file may go.
//!
//! The rules are in `specs/Upkeep`: they are the machine's too. A list may hold the names of the state's files alone, or those of one
//! partition: nothing hangs on other names.
#![tactic(auto)]

mod files;
mod newest;
mod snapshots;

pub use files::may_go;
pub use newest::{is_among, newest_to};
pub use snapshots::due;
