//! The outside as it is: a folder as the disk, files of lines as the logs, and standard output.
//!
//! No contract can say what a file holds or takes, so these types tell no content. They owe what their traits ask of
//! every type: that a call answers its fault only where it raised its count, and a clock that never falls. That
//! they do to the folder what the traits mean is in their code alone, which is therefore kept small: functions that
//! return an `io::Result`, and trait methods that count.
#![tactic(auto)]

mod blocks;
mod checkpoint;
mod disk;
mod faults;
mod folder;
mod inputs;
mod listing;
mod log;
mod marks;
mod output;

pub use disk::{FolderDisk, FolderStage, SealedFile};
pub use inputs::FolderInputs;
pub use log::FileLog;
pub use output::StandardOutput;
