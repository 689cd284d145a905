//! The disk that holds a checkpoint.

ghost use Rattle.std.specs.Prelude.{◌≡◌, ◌<◌, ◌≤◌, ◌++◌, ◌^◌, ℕ, List, [], Option, Some, None, Contains, IfOk, OnOk, IfErr, OnErr, IsErrOf, option_map, ⊤};
ghost use Rattle.ssq_outside.specs.Faults.{Rises, StaysSure};
ghost use Rattle.ssq_outside.specs.Files.{Had, added, removed, settled_at, IsSyncStep, AreNames};
ghost use Rattle.ssq_outside.specs.History.{History, had_now, files_now, Elapses};

use crate::name::Name;
use std::alloc::{AllocError, Global};
use thiserror::Error;

/// Why a disk gave nothing.
#[derive(Clone, Copy, Debug, PartialEq, Eq, Error)]
pub enum DiskError {
    /// The disk failed.
    #[error("the disk failed")]
    Fault,
    /// Memory ran out.
    #[error("out of memory")]
    NoMemory,
}

/// A disk failed.
#[derive(Clone, Copy, Debug, PartialEq, Eq, Error)]
#[error("the disk failed")]
pub struct DiskFault;

/// Why a staged file took nothing, or not all.
#[derive(Clone, Copy, Debug, PartialEq, Eq, Error)]
pub enum StageError {
    /// The staged file failed: discard it.
    #[error("the staged file failed")]
    Fault,
    /// Memory ran out, and nothing was added.
    #[error("out of memory")]
    NoMemory,
}

impl From<DiskFault> for DiskError {
    ghost use Rattle.std.specs.Prelude.{◌≡◌};
    ghost use Rattle.ssq_outside.specs.declared.disk.DiskError.TheVariants.{Fault};

    ghost from_gives = { λ _ error. error ≡ Fault };

    fn from(_: DiskFault) -> DiskError {
        DiskError::Fault
    }
}

/// A fault of a staged file, once it is discarded, is the disk's.
impl From<StageError> for DiskError {
    ghost use Rattle.std.specs.Prelude.{◌≡◌};
    ghost use Rattle.ssq_outside.specs.Outcomes.{error_of_stage};

    ghost from_gives = { λ cause error. error ≡ error_of_stage cause };

    fn from(error: StageError) -> DiskError {
        match error {
            StageError::Fault => DiskError::Fault,
            StageError::NoMemory => DiskError::NoMemory,
        }
    }
}

impl From<AllocError> for DiskError {
    ghost use Rattle.std.specs.Prelude.{◌≡◌};
    ghost use Rattle.ssq_outside.specs.declared.disk.DiskError.TheVariants.{NoMemory};

    ghost from_gives = { λ _ error. error ≡ NoMemory };

    fn from(_: AllocError) -> DiskError {
        DiskError::NoMemory
    }
}

/// A file that is written aside, owned by one task. It stands in no checkpoint and in no image of a crash.
pub trait Stage: Drop + Sized {
    /// The file when it is whole and on the disk, to be published under a name.
    type Sealed: Drop;

    /// Whether the type tells what it holds.
    ghost tells: { Type 0 };
    /// The bytes so far.
    ghost written: { Self → List ℕ };
    /// The bytes of a sealed file.
    ghost sealed: { Self.Sealed → List ℕ };
    /// How often it has failed.
    ghost faults: { Self → ℕ };
    /// It never fails.
    ghost sure: { Self → Type 0 };

    /// Adds the bytes at the end.
    fn write(&mut self, bytes: &[u8]) -> Result<(), StageError>
        ensures ok { tells → OnOk result (written self.new ≡ written self.old ++ bytes.now) }
        ensures no_memory { tells → IsErrOf result StageError.NoMemory → written self.new ≡ written self.old }
        ensures counted { faults self.old ≤ faults self.new }
        ensures unfailed { OnOk result (faults self.new ≡ faults self.old) }
        ensures unfailed_memory { IsErrOf result StageError.NoMemory → faults self.new ≡ faults self.old }
        ensures cause { IsErrOf result StageError.Fault → Rises (faults self.old) (faults self.new) }
        ensures never { sure self.old → StaysSure 0 (faults self.old) (faults self.new) (sure self.new) };

    /// Settles the file, aside, and seals it. On a fault the staged file comes back, to be discarded.
    fn sync(self) -> Result<Self::Sealed, Self>
        ensures ok { tells → IfOk result (λ file. sealed file ≡ written self) }
        ensures cause { IfErr result (λ stage. Rises (faults self) (faults stage)) }
        ensures never { sure self → OnOk result ⊤ × OnErr result ⊥ };
}

/// The disk that holds a checkpoint: a finite map from names to bytes that a crash may set back.
///
/// A crash leaves for each name by itself the content that it had at the last successful `sync_names`, or one that
/// it had since. A failed call leaves any state that its start or its success allows. Staged files are in no image.
pub trait Disk: Drop {
    type Stage: Stage;

    /// Whether the type tells what it holds.
    ghost tells: { Type 0 };
    /// The clock, and what a crash at each moment might have left.
    ghost history: { Self → History };
    /// How often it, or a stage that was discarded, has failed.
    ghost faults: { Self → ℕ };
    /// It never fails.
    ghost sure: { Self → Type 0 };

    /// Begins a file aside. Its count of faults begins at 0.
    fn stage(&mut self, alloc: Global) -> Result<Self::Stage, DiskError>
        ensures empty { tells → IfOk result (λ stage. Self.Stage.written stage ≡ []) }
        ensures fresh { IfOk result (λ stage. Self.Stage.faults stage ≡ 0) }
        ensures never_stage { sure self.old → IfOk result (λ stage. Self.Stage.sure stage) }
        ensures same { tells → history self.new ≡ history self.old }
        ensures clock { (history self.old).moment ≤ (history self.new).moment }
        ensures counted { faults self.old ≤ faults self.new }
        ensures cause { IsErrOf result DiskError.Fault → Rises (faults self.old) (faults self.new) }
        ensures never { sure self.old → StaysSure (history self.old).moment (faults self.old) (faults self.new) (sure self.new) };

    /// Takes a file away that was begun aside. Its faults count as the disk's.
    fn discard(&mut self, stage: Self::Stage)
        ensures same { tells → history self.new ≡ history self.old }
        ensures clock { (history self.old).moment ≤ (history self.new).moment }
        ensures counted { faults self.old ≤ faults self.new }
        ensures cause { 0 < Self.Stage.faults stage → Rises (faults self.old) (faults self.new) }
        ensures unfailed { Self.Stage.faults stage ≡ 0 → faults self.new ≡ faults self.old }
        ensures never { sure self.old → sure self.new };

    /// Gives a whole sealed file to a name in one step, in place of what the name had.
    fn publish(&mut self, file: <Self::Stage as Stage>::Sealed, name: Name) -> Result<(), DiskFault>
        ensures ok { tells → OnOk result (had_now (history self.new) ≡ added name (Self.Stage.sealed file) (had_now (history self.old))) }
        ensures steps { tells → Elapses (history self.old) (history self.new) (λ had. had ≡ added name (Self.Stage.sealed file) (had_now (history self.old))) }
        ensures clock { (history self.old).moment ≤ (history self.new).moment }
        ensures counted { faults self.old ≤ faults self.new }
        ensures cause { OnErr result (Rises (faults self.old) (faults self.new)) }
        ensures never { sure self.old → StaysSure (history self.old).moment (faults self.old) (faults self.new) (sure self.new) };

    /// Removes a name's file. Of a name that is not there nothing changes.
    fn remove(&mut self, name: Name) -> Result<(), DiskFault>
        ensures ok { tells → OnOk result (had_now (history self.new) ≡ removed name (had_now (history self.old))) }
        ensures steps { tells → Elapses (history self.old) (history self.new) (λ had. had ≡ removed name (had_now (history self.old))) }
        ensures clock { (history self.old).moment ≤ (history self.new).moment }
        ensures counted { faults self.old ≤ faults self.new }
        ensures cause { OnErr result (Rises (faults self.old) (faults self.new)) }
        ensures never { sure self.old → StaysSure (history self.old).moment (faults self.old) (faults self.new) (sure self.new) };

    /// Settles each name's present content: what the names had before cannot come back.
    fn sync_names(&mut self) -> Result<(), DiskFault>
        ensures ok { tells → OnOk result (had_now (history self.new) ≡ settled_at (files_now (history self.old))) }
        ensures steps { tells → Elapses (history self.old) (history self.new) (IsSyncStep (had_now (history self.old))) }
        ensures clock { (history self.old).moment ≤ (history self.new).moment }
        ensures counted { faults self.old ≤ faults self.new }
        ensures cause { OnErr result (Rises (faults self.old) (faults self.new)) }
        ensures never { sure self.old → StaysSure (history self.old).moment (faults self.old) (faults self.new) (sure self.new) };

    /// The whole content of a name, or `None` where it is not there.
    fn read(&mut self, alloc: Global, name: Name) -> Result<Option<Vec<u8>>, DiskError>
        ensures found { tells → IfOk result (λ content. option_map (λ bytes. bytes.items) content ≡ files_now (history self.old) name) }
        ensures same { tells → history self.new ≡ history self.old }
        ensures clock { (history self.old).moment ≤ (history self.new).moment }
        ensures counted { faults self.old ≤ faults self.new }
        ensures cause { IsErrOf result DiskError.Fault → Rises (faults self.old) (faults self.new) }
        ensures never { sure self.old → StaysSure (history self.old).moment (faults self.old) (faults self.new) (sure self.new) };

    /// The names that are there, each once, in their order.
    fn names(&mut self, alloc: Global) -> Result<Vec<Name>, DiskError>
        ensures found { tells → IfOk result (λ names. AreNames (files_now (history self.old)) names.items) }
        ensures same { tells → history self.new ≡ history self.old }
        ensures clock { (history self.old).moment ≤ (history self.new).moment }
        ensures counted { faults self.old ≤ faults self.new }
        ensures cause { IsErrOf result DiskError.Fault → Rises (faults self.old) (faults self.new) }
        ensures never { sure self.old → StaysSure (history self.old).moment (faults self.old) (faults self.new) (sure self.new) };

    /// The clock: a number that never falls.
    fn clock(&self) -> u64
        ensures { result ≡ (history self.now).moment };

    /// A disk that tells what it holds hands out stages that tell.
    ghost stages_tell: { tells → Self.Stage.tells };
}

/// Writes a file aside and seals it.
pub fn seal<D: Disk>(
    alloc: Global,
    disk: &mut D,
    bytes: &[u8],
) -> Result<<D::Stage as Stage>::Sealed, DiskError>
    ensures sealed { D.tells → IfOk result (λ file. D.Stage.sealed file ≡ bytes.now) }
    ensures same { D.tells → D.history disk.new ≡ D.history disk.old }
    ensures counted { D.faults disk.old ≤ D.faults disk.new }
    ensures cause { IsErrOf result DiskError.Fault → Rises (D.faults disk.old) (D.faults disk.new) }
{
    let mut stage = disk.stage(alloc)?;
    match stage.write(bytes) {
        Ok(()) => {}
        Err(error) => {
            disk.discard(stage);
            return Err(DiskError::from(error));
        }
    }
    match stage.sync() {
        Ok(file) => Ok(file),
        Err(stage) => {
            disk.discard(stage);
            Err(DiskError::Fault)
        }
    }
}
