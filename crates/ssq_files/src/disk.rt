//! A folder as the disk.

ghost use Rattle.std.specs.Prelude.{◌≡◌, ◌≤◌, [], None, OnErr, length};
ghost use Rattle.ssq_outside.specs.Faults.{Rises};

use crate::checkpoint::{Checkpoint, ROOT_CAP};
use crate::faults::raise;
use ssq_outside::{Disk, DiskError, DiskFault, Name, Stage, StageError};
use std::alloc::Global;
use std::fs::OpenFile;
use std::io;
use std::io::{ErrorKind, Write};
use std::rt::Files;

/// A folder that holds a checkpoint, each file under its name's text.
///
/// A file is written in the folder's own folder `aside`, so on the same file system, synced there, and published by a
/// rename. Files that a run which died has left aside are taken away before the first is written, and never read.
/// Other files of the folder are left alone.
#[derive(Drop)]
pub struct FolderDisk<R> {
    checkpoint: Checkpoint<R>,
    /// How many changes were begun.
    clock: u64,
    faults: u64,
}

impl<R: Files + Drop> FolderDisk<R> {
    /// The disk in the folder of this path, which has no slash at its end, at moment 0. The folder is made with the first
    /// file; the one that it lies in is there.
    pub fn new(rt: R, root: &str) -> FolderDisk<R>
        requires { length root.now ≤ ROOT_CAP }
        ensures count { ⟦<FolderDisk<R> as Disk>⟧.faults result ≡ 0 }
        ensures clock { (⟦<FolderDisk<R> as Disk>⟧.history result).moment ≡ 0 }
    {
        FolderDisk {
            checkpoint: Checkpoint::new(rt, root),
            clock: 0,
            faults: 0,
        }
    }

    /// What an error means. That memory ran out is no fault.
    fn failed(&mut self, error: io::Error) -> DiskError
        ensures clock { self.old.clock ≤ self.new.clock }
        ensures counted { self.old.faults ≤ self.new.faults }
        ensures cause { result ≡ DiskError.Fault → Rises self.old.faults self.new.faults }
    {
        match error.kind() {
            ErrorKind::OutOfMemory => DiskError::NoMemory,
            _ => {
                raise(&mut self.faults);
                DiskError::Fault
            }
        }
    }

    /// The outcome of a change. Each error is a fault.
    fn changed(&mut self, outcome: io::Result<()>) -> Result<(), DiskFault>
        ensures clock { self.old.clock ≤ self.new.clock }
        ensures counted { self.old.faults ≤ self.new.faults }
        ensures cause { OnErr result (Rises self.old.faults self.new.faults) }
    {
        raise(&mut self.clock);
        match outcome {
            Ok(()) => Ok(()),
            Err(_) => {
                raise(&mut self.faults);
                Err(DiskFault)
            }
        }
    }
}

impl<R: Files + Drop> Disk for FolderDisk<R> {
    type Stage = FolderStage<R::File>;

    ghost tells = { ⊥ };

    ghost history = { λ disk. record { moment = disk.clock; had_at = λ _ _. record { settled = None; since = [] } } };

    ghost faults = { λ disk. disk.faults };

    ghost sure = { λ _. ⊥ };

    ghost stages_tell = { λ never. never };

    fn stage(&mut self, _alloc: Global) -> Result<Self::Stage, DiskError> {
        match self.checkpoint.stage() {
            Ok((number, file)) => Ok(FolderStage {
                number,
                file,
                faults: 0,
            }),
            Err(e) => Err(self.failed(e)),
        }
    }

    fn discard(&mut self, stage: Self::Stage) {
        let FolderStage { number, faults, .. } = stage;
        // A file that stays aside is in no checkpoint, and the next run takes it away.
        let _ = self.checkpoint.discard(number);
        if faults > 0 {
            raise(&mut self.faults);
        }
    }

    fn publish(&mut self, file: SealedFile, name: Name) -> Result<(), DiskFault> {
        let outcome = self.checkpoint.publish(file.number, name);
        if outcome.is_err() {
            let _ = self.checkpoint.discard(file.number);
        }
        self.changed(outcome)
    }

    fn remove(&mut self, name: Name) -> Result<(), DiskFault> {
        let outcome = self.checkpoint.remove(name);
        self.changed(outcome)
    }

    fn sync_names(&mut self) -> Result<(), DiskFault> {
        let outcome = self.checkpoint.sync();
        self.changed(outcome)
    }

    fn read(&mut self, alloc: Global, name: Name) -> Result<Option<Vec<u8>>, DiskError> {
        match self.checkpoint.read(alloc, name) {
            Ok(content) => Ok(content),
            Err(e) => Err(self.failed(e)),
        }
    }

    fn names(&mut self, alloc: Global) -> Result<Vec<Name>, DiskError> {
        match self.checkpoint.names(alloc) {
            Ok(names) => Ok(names),
            Err(e) => Err(self.failed(e)),
        }
    }

    fn clock(&self) -> u64 {
        self.clock
    }
}

/// A file that is written aside.
#[derive(Drop)]
pub struct FolderStage<F> {
    number: u64,
    file: F,
    faults: u64,
}

/// A file that is whole and synced, aside.
#[derive(Drop)]
pub struct SealedFile {
    number: u64,
}

impl<F: Write + OpenFile + Drop> Stage for FolderStage<F> {
    type Sealed = SealedFile;

    ghost tells = { ⊥ };

    ghost written = { λ _. [] };

    ghost sealed = { λ _. [] };

    ghost faults = { λ stage. stage.faults };

    ghost sure = { λ _. ⊥ };

    fn write(&mut self, bytes: &[u8]) -> Result<(), StageError> {
        match self.file.write_all(bytes) {
            Ok(()) => Ok(()),
            Err(_) => {
                raise(&mut self.faults);
                Err(StageError::Fault)
            }
        }
    }

    fn sync(mut self) -> Result<SealedFile, Self> {
        match self.file.sync_all() {
            Ok(()) => Ok(SealedFile {
                number: self.number,
            }),
            Err(_) => {
                raise(&mut self.faults);
                Err(self)
            }
        }
    }
}
