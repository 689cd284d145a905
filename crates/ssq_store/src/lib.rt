//! The versioned state of one partition: loaded from its files, sealed and advanced version by version, and kept whole from time to time.
#![tactic(auto)]

mod fault;
mod law;
mod listed;
mod load;
mod store;
mod whole;

pub use fault::{SealFault, SnapshotFault, StoreFault};
pub use law::{loading_is_exact, sealed_files_are_true};
pub use store::Store;
pub use whole::snapshot;
