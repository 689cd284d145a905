//! The gate that each task passes as it begins.

/// A task of an epoch.
#[derive(Clone, Copy)]
pub struct TaskId {
    /// The epoch, from 0.
    pub epoch: u32,
    /// What the task does.
    pub kind: Kind,
    /// Which one of its kind, from 0: the part of a map task, the partition of a reduce or an upkeep task.
    pub number: u32,
}

/// What a task does.
#[derive(Clone, Copy)]
pub enum Kind {
    /// Reads the new lines of a part.
    Map,
    /// Takes the rows of a partition into its state.
    Reduce,
    /// Writes the rows of the epoch.
    Out,
    /// Writes a snapshot of a partition's state.
    Upkeep,
}

/// A place that each task passes as it begins, outside the coordinator's turn, so that a test can see which tasks
/// overlap. It promises only to return.
pub trait Gate: Sync {
    /// Called once as the task begins.
    fn at(&self, task: TaskId);
}
