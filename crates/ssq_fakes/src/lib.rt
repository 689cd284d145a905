//! The outside in memory, for tests and for generated input: a disk, inputs, logs and an output that tell what they hold, each with a list
//! of calls that are to fail, and a gate that is open.
//!
//! An object without such a list never fails (`sure`, of the traits). A call that is to fail raises the object's
//! count of faults, answers the fault and does nothing else. Calls are counted from 0 on each object, those that have
//! a fault to give. Each object tells which calls are to fail and which one is next (`disk_plan`, `disk_calls` and their
//! like), and each call says that it fails where it is one of these.
#![tactic(auto)]

mod disk;
mod faults;
mod gate;
mod inputs;
mod log;
mod names;
mod output;
mod plan;
mod record;
mod returned;

pub use disk::{MemDisk, MemFile, MemStage, each_image_is_picked};
pub use gate::OpenGate;
pub use inputs::MemInputs;
pub use log::MemLog;
pub use output::MemOut;
pub use plan::FailAt;
