//! The upkeep of the state's files.

ghost use Rattle.std.specs.Prelude.{◌≡◌, ◌≤◌, ◌<◌, ◌+◌, ◌-◌, ◌++◌, ◌^◌, [], ◌∷◌, length, Some, None, Err, true, All, is_some, IfOk, IfErr, IfSome, OnOk, IsErrOf};
ghost use Rattle.ssq_outside.specs.Faults.{Rises};
ghost use Rattle.ssq_outside.specs.History.{files_now};
ghost use Rattle.ssq_outside.specs.declared.name.Name.TheVariants as name;
ghost use Rattle.ssq_upkeep.specs.Upkeep.{is_among};
ghost use Rattle.ssq_board.specs.Shelf.{there_in};
ghost use Rattle.ssq_core.specs.Course.{truth};
ghost use Rattle.ssq_course.specs.Setting.{course_of};
ghost use Rattle.ssq_board.specs.declared.front.Entry.TheVariants as entry;
ghost use Rattle.ssq_ledger.specs.Shown.{cuts_of, did, shelf_of};
ghost use Rattle.ssq_ledger.specs.Names.{IsNewestBelow};
ghost use Rattle.ssq_ledger.specs.Upkept.{IsDropped, IsTaken};
ghost use Rattle.ssq_desk.specs.Contents.{keeping_in};
ghost use Rattle.ssq_desk.specs.Round.{Owns, setting_of};
ghost use Rattle.ssq_desk.specs.Whole.{opening_in};
ghost use Rattle.ssq_desk.specs.Upkeep.{AreReadFor, FailsFor, IsHandedOut, IsMalformed, IsMissing, IsNotFound, IsReadBy, IsTakenBack, IsUnread, IsUpkeepDone, IsUpkeepOf, NeverDamaged, cause_of_snapshot, deltas_from, files_for, names_in};

use crate::desk::Desk;
use ssq_board::Cause;
use ssq_field::Bytes;
use ssq_ledger::{Ledger, Opening};
use ssq_outside::{Disk, Log, Name, Stage};
use ssq_store::{SnapshotFault, loading_is_exact, sealed_files_are_true, snapshot};
use ssq_task::Held;
use ssq_terms::{job_is_wanted, round_begins_as_found, tasks_have_terms};
use std::alloc::{AllocError, Global};

/// A snapshot that is to be made: the state of a partition at a version, from these files, in a file aside.
#[derive(Drop)]
pub struct UpkeepTask<S> {
    pub partition: u32,
    pub version: u32,
    /// The newest snapshot below the version, where there is one, and the deltas after it up to the version.
    pub files: Vec<(Name, Bytes)>,
    pub stage: S,
}

/// What came of a snapshot that was to be made: the sealed file, or why it was not made, with the file aside.
#[derive(Drop)]
pub struct UpkeepDone<S: Stage> {
    pub partition: u32,
    pub version: u32,
    pub outcome: Result<S::Sealed, (S, SnapshotFault)>,
}

/// Makes a snapshot.
pub fn keep<S: Stage>(alloc: Global, task: UpkeepTask<S>) -> UpkeepDone<S>
    ensures { IsUpkeepDone S.tells S.written S.sealed S.faults task result }
{
    let UpkeepTask {
        partition,
        version,
        files,
        stage,
    } = task;
    UpkeepDone {
        partition,
        version,
        outcome: snapshot(alloc, partition, version, files.as_slice(), stage),
    }
}

/// Why no snapshot was made.
fn cause_of_snapshot(fault: SnapshotFault) -> Cause
    ensures { result ≡ cause_of_snapshot fault }
{
    match fault {
        SnapshotFault::Damaged { name } => Cause::Damaged { name },
        SnapshotFault::DiskFault => Cause::DiskFault,
        SnapshotFault::NoMemory => Cause::NoMemory,
    }
}

/// How many partitions keep state.
fn count_of(held: &[Option<Held>]) -> u32
    requires { length held.now < 2 ^ 32 }
    ensures { result ≡ length held.now }
{
    held.len() as u32
}

/// The law of a snapshot's numbers: they fit 32 bits.
fn numbers_fit(partition: u32, version: u32)
    ensures partition { partition < 2 ^ 32 }
    ensures version { version + 1 ≤ 2 ^ 32 }
{}

/// What a file holds that has to be there.
fn read_file<D: Disk, O: Opening>(
    alloc: Global,
    ledger: &mut Ledger<D, O>,
    name: Name,
) -> Result<Bytes, Cause>
    ensures did { ledger.new ≡ did ledger.old ledger.new.disk [] }
    ensures same { D.tells → D.history ledger.new.disk ≡ D.history ledger.old.disk }
    ensures found { D.tells → IfOk result (λ bytes. files_now (D.history ledger.old.disk) name ≡ Some bytes) }
    ensures cause { IfErr result (FailsFor (λ q. (q ≡ name) × (D.tells → files_now (D.history ledger.old.disk) q ≡ None)) (D.faults ledger.old.disk) (D.faults ledger.new.disk)) }
    ensures counted { D.faults ledger.old.disk ≤ D.faults ledger.new.disk }
{
    match ledger.read(alloc, name)? {
        Some(bytes) => Ok(Bytes::from_vec(bytes)),
        None => Err(Cause::Damaged { name }),
    }
}

/// Adds a file that was read.
fn push_file(files: &mut Vec<(Name, Bytes)>, name: Name, bytes: Bytes) -> Result<(), AllocError>
    ensures { OnOk result (files.new.items ≡ files.old.items ++ (name, bytes) ∷ []) }
{
    files.push((name, bytes))?;
    Ok(())
}

/// Adds a file.
fn add_file<D: Disk, O: Opening>(
    alloc: Global,
    ledger: &mut Ledger<D, O>,
    name: Name,
    files: &mut Vec<(Name, Bytes)>,
) -> Result<(), Cause>
    ensures did { ledger.new ≡ did ledger.old ledger.new.disk [] }
    ensures same { D.tells → D.history ledger.new.disk ≡ D.history ledger.old.disk }
    ensures names { OnOk result (names_in files.new.items ≡ names_in files.old.items ++ name ∷ []) }
    ensures there { D.tells → OnOk result (is_some (files_now (D.history ledger.old.disk) name) ≡ true) }
    ensures found { D.tells → OnOk result (All (λ file. files_now (D.history ledger.old.disk) file.0 ≡ Some file.1) files.old.items → All (λ file. files_now (D.history ledger.old.disk) file.0 ≡ Some file.1) files.new.items) }
    ensures cause { IfErr result (FailsFor (λ q. (q ≡ name) × (D.tells → files_now (D.history ledger.old.disk) q ≡ None)) (D.faults ledger.old.disk) (D.faults ledger.new.disk)) }
    ensures counted { D.faults ledger.old.disk ≤ D.faults ledger.new.disk }
{
    let bytes = read_file(alloc, ledger, name)?;
    Ok(push_file(files, name, bytes)?)
}

/// Adds the deltas of a partition from a version on, up to so many versions.
fn with_deltas<D: Disk, O: Opening>(
    alloc: Global,
    ledger: &mut Ledger<D, O>,
    partition: u32,
    from: u64,
    versions: u64,
    files: Vec<(Name, Bytes)>,
) -> Result<Vec<(Name, Bytes)>, Cause>
    requires from { from ≤ versions }
    requires few { versions ≤ 2 ^ 32 }
    ensures did { ledger.new ≡ did ledger.old ledger.new.disk [] }
    ensures same { D.tells → D.history ledger.new.disk ≡ D.history ledger.old.disk }
    ensures names { IfOk result (λ read. names_in read.items ≡ names_in files.items ++ deltas_from partition from (versions - from)) }
    ensures found { D.tells → All (λ file. files_now (D.history ledger.old.disk) file.0 ≡ Some file.1) files.items → IfOk result (λ read. All (λ file. files_now (D.history ledger.old.disk) file.0 ≡ Some file.1) read.items) }
    ensures cause { IfErr result (FailsFor (IsNotFound D.tells (files_now (D.history ledger.old.disk)) (deltas_from partition from (versions - from))) (D.faults ledger.old.disk) (D.faults ledger.new.disk)) }
    ensures counted { D.faults ledger.old.disk ≤ D.faults ledger.new.disk }
{
    let mut files = files;
    for version in from..versions {
        add_file(
            alloc,
            ledger,
            Name::Delta(partition, version as u32),
            &mut files,
        )?;
    }
    Ok(files)
}

/// A snapshot of a partition and the deltas after it, up to so many versions.
fn read_behind<D: Disk, O: Opening>(
    alloc: Global,
    ledger: &mut Ledger<D, O>,
    partition: u32,
    below: u32,
    versions: u64,
) -> Result<Vec<(Name, Bytes)>, Cause>
    requires from { below + 1 ≤ versions }
    requires few { versions ≤ 2 ^ 32 }
    ensures did { ledger.new ≡ did ledger.old ledger.new.disk [] }
    ensures same { D.tells → D.history ledger.new.disk ≡ D.history ledger.old.disk }
    ensures names { IfOk result (λ read. names_in read.items ≡ name.Snapshot partition below ∷ deltas_from partition (below + 1) (versions - (below + 1))) }
    ensures found { D.tells → IfOk result (λ read. All (λ file. files_now (D.history ledger.old.disk) file.0 ≡ Some file.1) read.items) }
    ensures cause { IfErr result (FailsFor (IsNotFound D.tells (files_now (D.history ledger.old.disk)) (name.Snapshot partition below ∷ deltas_from partition (below + 1) (versions - (below + 1)))) (D.faults ledger.old.disk) (D.faults ledger.new.disk)) }
    ensures counted { D.faults ledger.old.disk ≤ D.faults ledger.new.disk }
{
    let mut files = Vec::new(alloc);
    let name = Name::Snapshot(partition, below);
    add_file(alloc, ledger, name, &mut files)?;
    with_deltas(alloc, ledger, partition, below as u64 + 1, versions, files)
}

/// The files that make the state of a partition at a version.
fn read_files<D: Disk, O: Opening>(
    alloc: Global,
    ledger: &mut Ledger<D, O>,
    partition: u32,
    version: u32,
) -> Result<Vec<(Name, Bytes)>, Cause>
    ensures did { ledger.new ≡ did ledger.old ledger.new.disk [] }
    ensures same { D.tells → D.history ledger.new.disk ≡ D.history ledger.old.disk }
    ensures read { IfOk result (λ files. IsReadBy D.tells (files_now (D.history ledger.old.disk)) partition version (there_in (shelf_of O.opening ledger.old)) files.items) }
    ensures cause { IfErr result (FailsFor (IsUnread D.tells (files_now (D.history ledger.old.disk)) partition version (there_in (shelf_of O.opening ledger.old))) (D.faults ledger.old.disk) (D.faults ledger.new.disk)) }
    ensures counted { D.faults ledger.old.disk ≤ D.faults ledger.new.disk }
{
    let versions = version as u64 + 1;
    match ledger.snapshot_below(partition, version) {
        Some(below) => read_behind(alloc, ledger, partition, below, versions),
        None => with_deltas(alloc, ledger, partition, 0, versions, Vec::new(alloc)),
    }
}

/// All that a snapshot is made from.
fn begin<D: Disk, O: Opening>(
    alloc: Global,
    ledger: &mut Ledger<D, O>,
    partition: u32,
    version: u32,
) -> Result<UpkeepTask<D::Stage>, Cause>
    ensures did { ledger.new ≡ did ledger.old ledger.new.disk [] }
    ensures same { D.tells → D.history ledger.new.disk ≡ D.history ledger.old.disk }
    ensures of { IfOk result (λ task. (task.partition ≡ partition) × (task.version ≡ version)) }
    ensures read { IfOk result (AreReadFor D.tells (files_now (D.history ledger.old.disk)) (there_in (shelf_of O.opening ledger.old))) }
    ensures empty { D.tells → IfOk result (λ task. D.Stage.written task.stage ≡ []) }
    ensures fresh { IfOk result (λ task. D.Stage.faults task.stage ≡ 0) }
    ensures cause { IfErr result (FailsFor (IsUnread D.tells (files_now (D.history ledger.old.disk)) partition version (there_in (shelf_of O.opening ledger.old))) (D.faults ledger.old.disk) (D.faults ledger.new.disk)) }
    ensures counted { D.faults ledger.old.disk ≤ D.faults ledger.new.disk }
{
    let files = read_files(alloc, ledger, partition, version)?;
    let stage = ledger.stage(alloc)?;
    Ok(UpkeepTask {
        partition,
        version,
        files,
        stage,
    })
}

impl<'a, D: Disk, L: Log> Desk<'a, D, L> {
    /// Hands out the snapshot that is due next, with the files that it is made from, and `None` exactly where none is due. Where it cannot be begun, the
    /// desk is stopped and the answer is the cause: `Damaged`, with the first of these files that is missing, `DiskFault` or `NoMemory`.
    pub fn claim_upkeep(&mut self, alloc: Global) -> Result<Option<UpkeepTask<D::Stage>>, Cause>
        requires running { self.old.core.front.stop ≡ None }
        ensures handed { IsHandedOut (opening_in L.lines) (keeping_in (setting_of L.lines self.old.opening))
            (λ p v. IsMissing D.tells (Owns D.tells L.tells D.history L.lines self.old) (files_now (D.history self.old.disk)) p v (there_in (shelf_of (opening_in L.lines) self.old)))
            (D.faults self.old.disk) (D.faults self.new.disk) self.old self.new result }
        ensures task { IfOk result (λ given. IfSome given (IsUpkeepOf D.tells L.tells D.history L.lines D.Stage.written D.Stage.faults self.new)) }
        ensures read { IfOk result (λ given. IfSome given (AreReadFor D.tells (files_now (D.history self.old.disk)) (there_in (shelf_of (opening_in L.lines) self.old)))) }
        ensures same { D.tells → D.history self.new.disk ≡ D.history self.old.disk }
        ensures counted { D.faults self.old.disk ≤ D.faults self.new.disk }
    {
        self.ledger.is_legal();
        self.ledger.is_in_order();
        tasks_have_terms();
        round_begins_as_found();
        job_is_wanted();
        loading_is_exact();
        sealed_files_are_true();
        let keeping = count_of(self.load.held.as_slice());
        let claimed = self.ledger.claim_upkeep(keeping)?;
        let Some((partition, version)) = claimed else {
            return Ok(None);
        };
        match begin(alloc, &mut self.ledger, partition, version) {
            Ok(task) => Ok(Some(task)),
            Err(cause) => {
                self.ledger.report_unmade(partition, version, cause);
                Err(cause)
            }
        }
    }

    /// Takes a snapshot back that was handed out, and publishes it. After a Stop the file is dropped. Where it was not made, or the publishing fails, the
    /// desk is stopped, and that cause is the answer: one of its files is malformed, the disk failed, or memory ran out. It takes no memory.
    pub fn report_snapshot(&mut self, done: UpkeepDone<D::Stage>) -> Result<(), Cause>
        requires claimed { is_among (shelf_of (opening_in L.lines) self.old).claimed (name.Snapshot done.partition done.version) ≡ true }
        requires of { (task : _) × IsUpkeepOf D.tells L.tells D.history L.lines D.Stage.written D.Stage.faults self.old task × IsUpkeepDone D.Stage.tells D.Stage.written D.Stage.sealed D.Stage.faults task done }
        ensures taken { IsTakenBack self.old self.new done.partition done.version done.outcome result (Rises (D.faults self.old.disk) (D.faults self.new.disk)) }
        ensures cause { (task : _) → IsUpkeepOf D.tells L.tells D.history L.lines D.Stage.written D.Stage.faults self.old task → IsUpkeepDone D.Stage.tells D.Stage.written D.Stage.sealed D.Stage.faults task done →
            IfErr result (FailsFor (IsMalformed (Owns D.tells L.tells D.history L.lines self.old) task.files.items task.partition task.version) (D.faults self.old.disk) (D.faults self.new.disk)) }
        ensures same { D.tells → IfErr done.outcome (λ failed. D.history self.new.disk ≡ D.history self.old.disk) }
        ensures counted { D.faults self.old.disk ≤ D.faults self.new.disk }
    {
        loading_is_exact();
        let UpkeepDone {
            partition,
            version,
            outcome,
        } = done;
        numbers_fit(partition, version);
        match outcome {
            Ok(file) => self.take_snapshot(partition, version, file),
            Err((stage, fault)) => self.take_unmade(partition, version, stage, fault),
        }
    }

    /// Publishes a snapshot.
    fn take_snapshot(
        &mut self,
        partition: u32,
        version: u32,
        file: <D::Stage as Stage>::Sealed,
    ) -> Result<(), Cause>
        requires claimed { is_among (shelf_of (opening_in L.lines) self.old).claimed (name.Snapshot partition version) ≡ true }
        requires right { Owns D.tells L.tells D.history L.lines self.old → D.Stage.sealed file ≡ truth (course_of (setting_of L.lines self.old.opening) (cuts_of (opening_in L.lines) self.old)) (name.Snapshot partition version) }
        ensures taken { IsTaken self.old self.new partition version result (Rises (D.faults self.old.disk) (D.faults self.new.disk)) }
        ensures counted { D.faults self.old.disk ≤ D.faults self.new.disk }
    {
        self.ledger.report_snapshot(partition, version, file)
    }

    /// Takes back what came in place of a snapshot, with its file aside.
    fn take_unmade(
        &mut self,
        partition: u32,
        version: u32,
        stage: D::Stage,
        fault: SnapshotFault,
    ) -> Result<(), Cause>
        requires claimed { is_among (shelf_of (opening_in L.lines) self.old).claimed (name.Snapshot partition version) ≡ true }
        requires never { NeverDamaged (Owns D.tells L.tells D.history L.lines self.old) fault }
        ensures did { self.new ≡ did self.old self.new.disk (entry.Unmade partition version (cause_of_snapshot fault) ∷ []) }
        ensures answer { result ≡ Err (cause_of_snapshot fault) }
        ensures risen { 0 < D.Stage.faults stage → Rises (D.faults self.old.disk) (D.faults self.new.disk) }
        ensures same { D.tells → D.history self.new.disk ≡ D.history self.old.disk }
        ensures counted { D.faults self.old.disk ≤ D.faults self.new.disk }
    {
        let cause = cause_of_snapshot(fault);
        self.ledger.discard(stage);
        self.ledger.report_unmade(partition, version, cause);
        Err(cause)
    }

    /// Removes the first file of the state that may go. `false` comes exactly where none may.
    pub fn drop_old(&mut self) -> Result<bool, Cause>
        requires { self.old.core.front.stop ≡ None }
        ensures did { IsDropped (opening_in L.lines) self.old self.new result (Rises (D.faults self.old.disk) (D.faults self.new.disk)) }
        ensures counted { D.faults self.old.disk ≤ D.faults self.new.disk }
    {
        self.ledger.drop_old()
    }

    /// Whether names were synced since the last change of upkeep: no snapshot was published, and no file removed, since then.
    pub fn is_tidy(&self) -> bool
        ensures { result ≡ (shelf_of (opening_in L.lines) self.now).tidy }
    {
        self.ledger.is_tidy()
    }
}
