//! The outside of the engine, as traits: the disk that holds a checkpoint, the inputs and their logs, the output,
//! and the gate that tasks pass as they begin.
//!
//! Each trait says by ghost members what an object of it holds, and by clauses what each call does to that at each
//! outcome. Clauses on content hold where the type tells its content (`tells`), as the objects in memory do; a real
//! folder or file tells none. Clauses on the clock and on counts of faults hold for every object: a call answers its
//! fault only where the object's count of faults rose in that call.
#![tactic(auto)]

mod disk;
mod gate;
mod inputs;
mod name;
mod output;

pub use disk::{Disk, DiskError, DiskFault, Stage, StageError, seal};
pub use gate::{Gate, Kind, TaskId};
pub use inputs::{InputError, Inputs, LineError, Log, LogFault};
pub use name::Name;
pub use output::{OutError, Output};
