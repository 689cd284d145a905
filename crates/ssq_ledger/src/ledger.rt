//! The ledger's type.

ghost use Rattle.std.specs.Prelude.{◌≡◌, ◌≤◌, ◌<◌, ◌+◌, ◌^◌, true, length, [], ◌∷◌, IfOk, IfErr, IsErrOf, option_map, vec_capacity};
ghost use Rattle.ssq_outside.specs.Faults.{Rises};
ghost use Rattle.ssq_outside.specs.History.{files_now};
ghost use Rattle.ssq_board.specs.declared.front.Entry.{Entry};
ghost use Rattle.ssq_board.specs.Core.{need, after_all, cuts_by, ready_of};
ghost use Rattle.ssq_board.specs.Shelf.{first_shelf, shelf_by, there_in};
ghost use Rattle.ssq_board.specs.Shown.{IsStart, first};
ghost use Rattle.ssq_board.specs.Follows.{Terms};
ghost use Rattle.ssq_ledger.specs.Shown.{Shown, IsLedger, IsLegal, LeadsHere, IsInOrder, TellsPlans, did, cuts_of, shelf_after, shelf_of};
ghost use Rattle.ssq_ledger.specs.Names.{IsShelved, IsNewestBelow};

use crate::board::Board;
use crate::calls::room_of;
use crate::names::{Names, snapshot_below};
use crate::scope::{Scope, Start};
use ssq_board::{Entry, Front, Ready};
use ssq_outside::{Disk, DiskError, Name, Stage};
use ssq_plans::PartEnd;
use std::alloc::{AllocError, Global};
use std::marker::Model;
use std::snapshot::Snapshot;

/// What was opened, as contracts see it.
pub trait Opening: Drop {
    ghost use Rattle.ssq_outside.specs.History.{History};
    ghost use Rattle.ssq_board.specs.Core.{Scope};
    ghost use Rattle.ssq_ledger.specs.Shown.{Opening};

    /// Whether the logs tell what they hold, and what was opened is the job's own, with this before the round and with the disk as it was then.
    ghost tells: { Self → Scope → History → Type 0 };
    /// The job, its cuts so far, when an epoch without lines is due, where the round begins, and the files of the state.
    ghost opening: { Self → Opening };
}

/// The disk, where the tasks of the epoch that runs are, and the history of what was done.
#[derive(Drop)]
pub struct Ledger<D: Disk, O: Opening> {
    pub(crate) opening: Snapshot<O>,
    pub(crate) opened: Snapshot<D>,
    pub(crate) scope: Scope,
    pub(crate) disk: D,
    pub(crate) board: Board,
    pub(crate) names: Names,
    pub(crate) entries: Vec<Entry>,
}

impl<D: Disk, O: Opening> Model for Ledger<D, O> {
    ghost Value = { Shown D O };

    ghost view = { λ s. record { opening = s.opening.value; opened = s.opened.value; scope = s.scope; disk = s.disk; core = s.board; history = s.entries.items } };

    ghost invariant = { λ s. IsLedger (D.tells × O.tells s.opening.value s.scope (D.history s.opened.value)) (O.opening s.opening.value) (D.history s.opened.value) s.scope (D.history s.disk) s.board s.entries.items (vec_capacity s.entries)
        × IsShelved (shelf_after (O.opening s.opening.value) s.scope s.entries.items) (need s.board) (length s.entries.items) (vec_capacity s.entries) s.names };
}

impl<D: Disk, O: Opening> Ledger<D, O> {
    /// The ledger of a round that begins here, with the names of the state's files that are there. The disk comes back where memory ran out.
    pub fn new(
        alloc: Global,
        opening: Snapshot<O>,
        disk: D,
        scope: Scope,
        start: Start,
        names: Vec<Name>,
    ) -> Result<Ledger<D, O>, D>
        requires start { IsStart scope start }
        requires opened { start ≡ (O.opening opening.value).start }
        requires listed { (O.opening opening.value).shelf ≡ first_shelf names.items }
        requires numbers { start.is_planned ≡ true → start.committed < 4294967295 }
        requires few { length scope.available + scope.partitions ≤ 2 ^ 32 }
        requires terms { (D.tells × O.tells opening.value scope (D.history disk)) → Terms (O.opening opening.value).job scope (O.opening opening.value).due }
        requires plans { TellsPlans (O.opening opening.value).job }
        ensures made { IfOk result (λ made. made ≡ record { opening = opening.value; opened = disk; scope = scope; disk = disk; core = first scope (O.opening opening.value).start; history = [] }) }
        ensures back { IfErr result (λ back. back ≡ disk) }
    {
        let opened = Snapshot::of(&disk);
        match begin(alloc, &scope, start) {
            Ok((board, entries, news)) => Ok(Ledger {
                opening,
                opened,
                scope,
                disk,
                board,
                names: Names {
                    settled: names,
                    news,
                    claimed: Vec::new(alloc),
                    tidy: true,
                },
                entries,
            }),
            Err(_) => Err(disk),
        }
    }

    /// The law of the ledger: its history is legal from what was opened, and its numbers rest on what the job owes.
    pub fn is_legal(&self)
        ensures legal { IsLegal (D.tells × O.tells self.now.opening self.now.scope (D.history self.now.opened)) D.history O.opening self.now }
        ensures here { (D.tells × O.tells self.now.opening self.now.scope (D.history self.now.opened)) → LeadsHere (D.tells × O.tells self.now.opening self.now.scope (D.history self.now.opened)) D.history O.opening self.now }
        // What it knows, which cuts are planned and which files of the state are there follow from its entries, one by one.
        ensures core { self.now.core ≡ after_all self.now.scope (first self.now.scope (O.opening self.now.opening).start) self.now.history }
        ensures cuts { (disk : _) (e : Entry) → cuts_of O.opening (did self.now disk (e ∷ [])) ≡ cuts_by self.now.scope (cuts_of O.opening self.now) self.now.core e }
        ensures shelf { (disk : _) (e : Entry) → shelf_of O.opening (did self.now disk (e ∷ [])) ≡ shelf_by self.now.core (shelf_of O.opening self.now) e }
        ensures start { IsStart self.now.scope (O.opening self.now.opening).start }
        ensures terms { (D.tells × O.tells self.now.opening self.now.scope (D.history self.now.opened)) → Terms (O.opening self.now.opening).job self.now.scope (O.opening self.now.opening).due }
        ensures plans { TellsPlans (O.opening self.now.opening).job }
    {
        let _ = &self.entries;
    }

    /// The law of its tasks: what is so of each ledger, by its history.
    pub fn is_in_order(&self)
        ensures { IsInOrder self.now.scope self.now.core }
    {
        let _ = &self.entries;
    }

    /// Begins a file aside.
    pub fn stage(&mut self, alloc: Global) -> Result<D::Stage, DiskError>
        ensures did { self.new ≡ did self.old self.new.disk [] }
        ensures same { D.tells → D.history self.new.disk ≡ D.history self.old.disk }
        ensures empty { D.tells → IfOk result (λ stage. D.Stage.written stage ≡ []) }
        ensures fresh { IfOk result (λ stage. D.Stage.faults stage ≡ 0) }
        ensures counted { D.faults self.old.disk ≤ D.faults self.new.disk }
        ensures cause { IsErrOf result DiskError.Fault → Rises (D.faults self.old.disk) (D.faults self.new.disk) }
    {
        self.disk.stage(alloc)
    }

    /// What a file holds, if it is there.
    pub fn read(&mut self, alloc: Global, name: Name) -> Result<Option<Vec<u8>>, DiskError>
        ensures did { self.new ≡ did self.old self.new.disk [] }
        ensures same { D.tells → D.history self.new.disk ≡ D.history self.old.disk }
        ensures found { D.tells → IfOk result (λ content. option_map (λ bytes. bytes.items) content ≡ files_now (D.history self.old.disk) name) }
        ensures counted { D.faults self.old.disk ≤ D.faults self.new.disk }
        ensures cause { IsErrOf result DiskError.Fault → Rises (D.faults self.old.disk) (D.faults self.new.disk) }
    {
        self.disk.read(alloc, name)
    }

    /// The newest snapshot of a partition below a version, among the names that the ledger knows.
    pub fn snapshot_below(&self, partition: u32, version: u32) -> Option<u32>
        ensures { IsNewestBelow partition version (there_in (shelf_of O.opening self.now)) result }
    {
        snapshot_below(
            self.names.settled.as_slice(),
            self.names.news.as_slice(),
            partition,
            version,
        )
    }

    /// Takes a file away that was begun aside. Its faults count as the disk's.
    pub fn discard(&mut self, stage: D::Stage)
        ensures did { self.new ≡ did self.old self.new.disk [] }
        ensures same { D.tells → D.history self.new.disk ≡ D.history self.old.disk }
        ensures counted { D.faults self.old.disk ≤ D.faults self.new.disk }
        ensures cause { 0 < D.Stage.faults stage → Rises (D.faults self.old.disk) (D.faults self.new.disk) }
        ensures unfailed { D.Stage.faults stage ≡ 0 → D.faults self.new.disk ≡ D.faults self.old.disk }
    {
        self.disk.discard(stage);
    }

    /// The disk, the history of what was done, and the names of the state's files that no crash can take away.
    pub fn closed(self) -> (D, Vec<Entry>, Vec<Name>)
        ensures disk { result.0 ≡ self.disk }
        ensures history { result.1.items ≡ self.history }
        ensures names { result.2.items ≡ (shelf_of O.opening self).settled }
    {
        let Ledger {
            disk,
            entries,
            names,
            ..
        } = self;
        let Names { settled, .. } = names;
        (disk, entries, settled)
    }

    /// Whether all files of the state that are there are settled, but for deltas of the epoch that runs.
    pub fn is_tidy(&self) -> bool
        ensures { result ≡ (shelf_of O.opening self.now).tidy }
    {
        self.names.tidy
    }

    /// What is next.
    pub fn ready(&self) -> Ready
        ensures { result ≡ ready_of self.now.scope self.now.core }
    {
        self.board.ready(&self.scope)
    }

    /// The counts.
    pub fn front(&self) -> Front
        ensures { result ≡ self.now.core.front }
    {
        self.board.front()
    }

    /// Where the lines of the planned epochs end.
    pub fn ends(&self) -> &[PartEnd]
        ensures { result.now ≡ self.now.core.ends }
    {
        self.board.ends()
    }
}

/// What a ledger knows where its round begins, and a history and a list of names with room for all that can come before the next sync.
fn begin(
    alloc: Global,
    scope: &Scope,
    start: Start,
) -> Result<(Board, Vec<Entry>, Vec<Name>), AllocError>
    requires numbers { start.is_planned ≡ true → start.committed < 4294967295 }
    requires start { IsStart scope.now start }
    requires few { length scope.now.available + scope.now.partitions ≤ 2 ^ 32 }
    ensures board { IfOk result (λ made. made.0 ≡ first scope.now start) }
    ensures entries { IfOk result (λ made. made.1.items ≡ []) }
    ensures names { IfOk result (λ made. made.2.items ≡ []) }
    ensures room { IfOk result (λ made. need made.0 ≤ vec_capacity made.1) }
    ensures names_room { IfOk result (λ made. need made.0 ≤ vec_capacity made.2) }
{
    let board = Board::first(alloc, scope, start)?;
    let entries = Vec::with_capacity(alloc, room_of(board.count()))?;
    let names = Vec::with_capacity(alloc, room_of(board.count()))?;
    Ok((board, entries, names))
}
