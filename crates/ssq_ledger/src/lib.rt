//! The ledger of a round: the disk, where each task of the epoch that runs is, and the history of what was done.
//!
//! Each call that changes the ledger is one entry of its history, and does at most one `publish` or `sync_names`. The type says that
//! the history is legal from what was opened. What tasks own and bring is not its concern: it knows where they are, and what they met.
#![tactic(auto)]

mod board;
mod calls;
mod ends;
mod ledger;
mod names;
mod places;
mod plan;
mod scope;
mod upkeep;

pub use ledger::{Ledger, Opening};
pub use scope::{Scope, Start};
