//! The names of a checkpoint's files.

/// A file of a checkpoint: what it is for, and the epoch, partition or version that it belongs to.
///
/// Epochs and versions count from 0. A version of the state is the number of the epoch that wrote it.
/// Names are ordered by kind, in the order below, and then by their numbers from the left.
#[derive(Clone, Copy, Debug, PartialEq, Eq, PartialOrd, Ord)]
pub enum Name {
    /// The record of the job: its query, its number of partitions and the parts of each stream.
    Meta,
    /// The plan of an epoch: its watermark and its cut.
    Plan(u32),
    /// The record that an epoch is done.
    Commit(u32),
    /// The rows that an epoch gave.
    Out(u32),
    /// What a version changed in the state of a partition, by partition and version.
    Delta(u32, u32),
    /// The whole state of a partition at a version, by partition and version.
    Snapshot(u32, u32),
}

impl Name {
    ghost use Rattle.std.specs.Prelude.{◌≡◌};
    ghost use Rattle.ssq_outside.specs.Files.{same_name, name_before};

    /// Whether this is that name.
    pub fn is(self, other: Name) -> bool
        ensures { result ≡ same_name self other }
    {
        self == other
    }

    /// Whether this comes before that name, in the order of names.
    pub fn comes_before(self, other: Name) -> bool
        ensures { result ≡ name_before self other }
    {
        self < other
    }
}
