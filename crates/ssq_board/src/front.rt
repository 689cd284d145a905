//! Places of tasks, what a desk counts, and the entries of its history.

use ssq_outside::{DiskError, Name, TaskId};
use std::alloc::AllocError;

/// Why a line is no row of its stream.
#[derive(Clone, Copy, Debug)]
pub enum RowFault {
    /// The line has more than 1048576 bytes.
    TooLong,
    NotJson,
    NotObject,
    /// The first column, in declared order from 0, whose field has a value of another type.
    WrongType { column: usize },
    /// Its event time is missing.
    NoEventTime,
}

/// Why a task or a call brought nothing.
#[derive(Clone, Copy, Debug)]
pub enum Cause {
    /// This line is no row of its stream.
    BadLine {
        stream: u32,
        part: u32,
        offset: u64,
        fault: RowFault,
    },
    /// An expression overflowed on the row of this line.
    Overflow {
        stream: u32,
        part: u32,
        offset: u64,
    },
    /// What the epoch shows of a key is outside of its type's range. Which key that is, the task says that met it.
    KeyOverflow,
    /// A log failed.
    LogFault,
    /// A part has fewer lines than a plan says.
    LogShort {
        stream: u32,
        part: u32,
        logged: u64,
        found: u64,
    },
    /// A file is missing, or not what its name says.
    Damaged {
        name: Name,
    },
    /// The disk failed.
    DiskFault,
    /// As many epochs are planned as there may be.
    Full,
    NoMemory,
}

impl From<DiskError> for Cause {
    ghost use Rattle.std.specs.Prelude.{◌≡◌};
    ghost use Rattle.ssq_board.specs.Causes.{cause_of_disk};

    ghost from_gives = { λ error cause. cause ≡ cause_of_disk error };

    fn from(error: DiskError) -> Cause {
        match error {
            DiskError::Fault => Cause::DiskFault,
            DiskError::NoMemory => Cause::NoMemory,
        }
    }
}

impl From<AllocError> for Cause {
    ghost use Rattle.std.specs.Prelude.{◌≡◌};
    ghost use Rattle.ssq_board.specs.declared.front.Cause.TheVariants.{NoMemory};

    ghost from_gives = { λ _ cause. cause ≡ NoMemory };

    fn from(_: AllocError) -> Cause {
        Cause::NoMemory
    }
}

/// Where a task of the epoch that runs is.
#[derive(Clone, Copy)]
pub enum Place {
    /// There is no task of this number in this epoch.
    Rests,
    /// It can be claimed, once its phase begins.
    Waits,
    /// A worker has it.
    Away,
    /// It was reported: with its result, or with what it met in place of one, or with what the publishing of its result met.
    Back(Option<Cause>),
}

/// What a desk counts.
#[derive(Clone, Copy)]
pub struct Front {
    /// How many epochs are planned: as many as are committed, or one more.
    pub planned: u32,
    pub committed: u32,
    /// The plan of the epoch that runs is settled.
    pub fresh: bool,
    /// No plan, delta, rows or commit was published since the last sync. What upkeep publishes and removes does not count here.
    pub settled: bool,
    /// The sink file of the epoch that runs is published.
    pub written: bool,
    /// The epoch that runs has lines.
    pub has_lines: bool,
    /// All planned epochs are committed, and an epoch without lines is due: the watermark rose, and the query has something to
    /// show by that.
    pub due: bool,
    pub stop: Option<Cause>,
}

/// What may be done next.
#[derive(Clone, Copy, PartialEq, Eq)]
pub enum Ready {
    /// The next epoch is to be planned.
    Plan,
    /// A task can be claimed.
    Task,
    /// Names are to be synced.
    Sync,
    /// The epoch that runs is to be committed.
    Commit,
    /// Tasks are away, and nothing can be done before one is back.
    Idle,
    /// All that the round has before it is committed and settled.
    Over,
    Stopped,
}

/// What a call of the desk did.
#[derive(Clone, Copy)]
pub enum Entry {
    /// The plan of this epoch was published.
    Plan(u32),
    /// A task left the desk.
    Claim(TaskId),
    /// A task came back, and published nothing: with its result, or with what it met in place of one. Where that is the fault for
    /// which its phase stops, the desk is stopped.
    Report(TaskId, Option<Cause>),
    /// A reduce task came back with the sealed delta of its partition. The delta was published, but not after a Stop. Where its phase
    /// has a fault of another task and all its tasks are back by that, the desk is stopped.
    Version(TaskId),
    /// A reduce task came back with the sealed delta of its partition, the publishing of which failed. By that the desk is stopped.
    Missed(TaskId),
    /// The rows of this epoch were published.
    OutFile(u32),
    /// Names were synced. The disk's clock stood here as it returned.
    Sync(u64),
    /// The commit of this epoch was published, and whether by its watermark an epoch without lines is due next.
    Commit(u32, bool),
    /// The snapshot of this partition at this version, which is due, was handed out to be made.
    Upkeep(u32, u32),
    /// The sealed snapshot of this partition at this version came back. It was published, but not after a Stop.
    Snapshot(u32, u32),
    /// What came back in place of the snapshot of this partition at this version: what its making met, by which the desk is stopped.
    Unmade(u32, u32, Cause),
    /// The sealed snapshot of this partition at this version came back, and the publishing of it failed. By that the desk is stopped.
    Untaken(u32, u32),
    /// This file was removed, which may go.
    Drop(Name),
    /// The removal of this file, which may go, failed. By that the desk is stopped.
    Undropped(Name),
    /// A call failed, or a limit was met.
    Stop(Cause),
}
