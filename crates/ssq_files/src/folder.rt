//! The folders of a checkpoint.

use arrayvec::ArrayVec;
use ssq_outside::Name;
use std::fmt;

/// A folder of a checkpoint, or the one that it lies in.
#[derive(Clone, Copy, Default, PartialEq, Eq)]
pub(crate) enum Folder {
    /// The one that the checkpoint lies in.
    Parent,
    #[default]
    Root,
    Plans,
    Commits,
    Sink,
    State,
    Partition(u32),
    /// The files that are written aside.
    Aside,
}

impl Folder {
    /// The one in which a name's file lies.
    pub(crate) fn of(name: Name) -> Folder {
        match name {
            Name::Meta => Folder::Root,
            Name::Plan(_) => Folder::Plans,
            Name::Commit(_) => Folder::Commits,
            Name::Out(_) => Folder::Sink,
            Name::Delta(partition, _) | Name::Snapshot(partition, _) => {
                Folder::Partition(partition)
            }
        }
    }

    /// The one that it lies in.
    pub(crate) fn above(self) -> Folder {
        match self {
            Folder::Parent | Folder::Root => Folder::Parent,
            Folder::Partition(_) => Folder::State,
            _ => Folder::Root,
        }
    }
}

/// Its path from the root, with a slash at its end.
impl fmt::Display for Folder {
    fn fmt<W: fmt::Write>(&self, f: &mut fmt::Formatter<W>) -> fmt::Result {
        let path = match self {
            Folder::Parent => "../",
            Folder::Root => "",
            Folder::Plans => "offsets/",
            Folder::Commits => "commits/",
            Folder::Sink => "sink/",
            Folder::State => "state/",
            Folder::Partition(number) => return write!(f, "state/{number}/"),
            Folder::Aside => "aside/",
        };
        f.write_str(path)
    }
}

/// How many folders are remembered one by one: those with one number, and 64 partitions.
const FOLDERS: usize = 72;

/// The folders whose names may have changed since they were synced.
#[derive(Drop)]
pub(crate) enum Unsynced {
    /// Any.
    All,
    These(ArrayVec<Folder, FOLDERS>),
}

impl Unsynced {
    /// None.
    pub(crate) fn none() -> Unsynced {
        Unsynced::These(ArrayVec::new())
    }

    /// Adds one.
    pub(crate) fn add(&mut self, folder: Folder) {
        let is_in = match self {
            Unsynced::All => true,
            Unsynced::These(folders) => {
                folders.contains(&folder) || folders.try_push(folder).is_ok()
            }
        };
        if !is_in {
            *self = Unsynced::All;
        }
    }
}
