//! What changes the ledger.

ghost use Rattle.std.specs.Prelude.{◌≡◌, ◌≢◌, ◌≤◌, ◌<◌, ◌+◌, ◌*◌, ◌^◌, ◌++◌, length, [], ◌∷◌, Some, None, Ok, Err, IfErr, IfSome, IsErrOf, OnOk, OnErr, MatchOption, vec_capacity};
ghost use Rattle.std.specs.Option.{ForSome};
ghost use Rattle.ssq_outside.specs.Faults.{Rises};
ghost use Rattle.ssq_outside.specs.declared.name.Name.TheVariants as name;
ghost use Rattle.ssq_outside.specs.declared.gate.Kind.TheVariants as kind;
ghost use Rattle.ssq_time.specs.Time.{IsStampTime};
ghost use Rattle.ssq_core.specs.Course.{truth};
ghost use Rattle.ssq_board.specs.declared.front.Entry.TheVariants as entry;
ghost use Rattle.ssq_board.specs.declared.front.Cause.TheVariants as cause;
ghost use Rattle.ssq_board.specs.declared.front.Ready.TheVariants as ready;
ghost use mathlib.Core.Option.{some};
ghost use Rattle.ssq_board.specs.declared.front.Place.TheVariants as place;
ghost use Rattle.ssq_board.specs.Core.{Scope, May, HasCause, at, after, cuts_by, ready_of, due, with_front, stopped_front};
ghost use Rattle.ssq_ledger.specs.Shown.{Shown, IsTrue, HasNone, HasVersion, IsVersioned, HasRisen, IsUnplanned, did, cuts_of, answer};
ghost use Rattle.ssq_ledger.specs.Names.{MakesRoom, MakesSettled};

use crate::board::Board;
use crate::ledger::{Ledger, Opening};
use crate::names::{Names, add, make_room as make_names_room, make_settled, settle};
use crate::plan::Next;
use ssq_board::{Cause, Entry, Ready};
use ssq_outside::{Disk, DiskFault, Name, Stage, TaskId, seal};
use std::alloc::Global;

impl<D: Disk, O: Opening> Ledger<D, O> {
    /// The task that is handed out next: `None` exactly where none is ready.
    pub fn next_task(&self) -> Option<TaskId>
        ensures may { MatchOption result (ready_of self.now.scope self.now.core ≢ ready.Task) (λ t. May self.now.scope self.now.core (entry.Claim t)) }
        ensures out { IfSome result (λ t. t.kind ≡ kind.Out → t.number ≡ 0) }
    {
        if self.ready() == Ready::Task {
            Some(self.board.first_task(&self.scope))
        } else {
            None
        }
    }

    /// Hands a task out. It takes no memory.
    pub fn claim(&mut self, id: TaskId)
        requires { May self.old.scope self.old.core (entry.Claim id) }
        ensures { self.new ≡ did self.old self.old.disk (entry.Claim id ∷ []) }
    {
        self.board.claim(id);
        self.entries.push_reserved(Entry::Claim(id));
    }

    /// Takes a task back that brings no version of a partition's state: with its result, or with what it met in place of one. Answers
    /// the Stop that this brings about.
    pub fn report(&mut self, id: TaskId, fault: Option<Cause>) -> Result<(), Cause>
        requires may { May self.old.scope self.old.core (entry.Report id fault) }
        requires right { (D.tells × O.tells self.old.opening self.old.scope (D.history self.old.opened)) → IsTrue O.opening self.old id fault }
        requires bare { (D.tells × O.tells self.old.opening self.old.scope (D.history self.old.opened)) → HasNone O.opening self.old id fault }
        ensures did { self.new ≡ did self.old self.old.disk (entry.Report id fault ∷ []) }
        ensures answer { result ≡ answer (due self.old.core id fault) }
    {
        let stop = self.board.report(id, fault);
        self.entries.push_reserved(Entry::Report(id, fault));
        answer(stop)
    }

    /// Takes a reduce task back that brings the next version of its partition, and publishes its sealed delta. After a Stop the file is
    /// dropped, and the disk is left alone. Answers the Stop that this brings about: `DiskFault` where the publishing failed. It takes no
    /// memory.
    pub fn report_version(
        &mut self,
        id: TaskId,
        file: <D::Stage as Stage>::Sealed,
    ) -> Result<(), Cause>
        requires may { May self.old.scope self.old.core (entry.Version id) }
        requires right { (D.tells × O.tells self.old.opening self.old.scope (D.history self.old.opened)) → HasVersion O.opening self.old id (D.Stage.sealed file) }
        ensures did { IsVersioned self.old self.new id result (Rises (D.faults self.old.disk) (D.faults self.new.disk)) }
        ensures kept { self.old.core.front.stop ≢ None → self.new.disk ≡ self.old.disk }
        ensures counted { D.faults self.old.disk ≤ D.faults self.new.disk }
    {
        if self.board.front().stop.is_some() {
            return note_version(&mut self.board, &mut self.entries, id);
        }
        let name = Name::Delta(id.number, id.epoch);
        match self.disk.publish(file, name) {
            Ok(()) => {
                add(self.names.settled.as_slice(), &mut self.names.news, name);
                note_version(&mut self.board, &mut self.entries, id)
            }
            Err(_) => {
                note_missed(&mut self.board, &mut self.entries, id);
                Err(Cause::DiskFault)
            }
        }
    }

    /// Publishes the rows of the epoch that runs. It takes no memory.
    pub fn publish_rows(&mut self, file: <D::Stage as Stage>::Sealed) -> Result<(), DiskFault>
        requires may { May self.old.scope self.old.core (entry.OutFile self.old.core.front.committed) }
        requires right { (D.tells × O.tells self.old.opening self.old.scope (D.history self.old.opened)) → D.Stage.sealed file ≡ truth ((O.opening self.old.opening).job.course (cuts_of O.opening self.old)) (name.Out self.old.core.front.committed) }
        ensures done { OnOk result (self.new ≡ did self.old self.new.disk (entry.OutFile self.old.core.front.committed ∷ [])) }
        ensures stopped { OnErr result ((self.new ≡ did self.old self.new.disk (entry.Stop cause.DiskFault ∷ [])) × Rises (D.faults self.old.disk) (D.faults self.new.disk)) }
        ensures counted { D.faults self.old.disk ≤ D.faults self.new.disk }
    {
        let epoch = self.board.front().committed;
        match self.disk.publish(file, Name::Out(epoch)) {
            Ok(()) => {
                self.board.write();
                self.entries.push_reserved(Entry::OutFile(epoch));
                Ok(())
            }
            Err(fault) => {
                halt(&mut self.board, &mut self.entries, Cause::DiskFault);
                Err(fault)
            }
        }
    }

    /// Syncs names: the plan of the epoch that runs, its rows, a commit, or what upkeep changed.
    pub fn sync(&mut self) -> Result<(), Cause>
        requires { self.old.core.front.stop ≡ None }
        ensures done { OnOk result ((clock : _) × (self.new ≡ did self.old self.new.disk (entry.Sync clock ∷ []))) }
        ensures stopped { IfErr result (λ f. (self.new ≡ did self.old self.new.disk (entry.Stop f ∷ [])) × HasRisen f (D.faults self.old.disk) (D.faults self.new.disk)) }
        ensures counted { D.faults self.old.disk ≤ D.faults self.new.disk }
    {
        let Some(()) = make_sync_room(&mut self.entries, &mut self.names, self.board.count()) else {
            halt(&mut self.board, &mut self.entries, Cause::NoMemory);
            return Err(Cause::NoMemory);
        };
        match self.disk.sync_names() {
            Ok(()) => {
                self.board.settle();
                settle(&mut self.names.settled, &mut self.names.news);
                self.names.tidy = true;
                let clock = self.disk.clock();
                self.entries.push_reserved(Entry::Sync(clock));
                Ok(())
            }
            Err(_) => {
                halt(&mut self.board, &mut self.entries, Cause::DiskFault);
                Err(Cause::DiskFault)
            }
        }
    }

    /// Publishes the commit of the epoch that runs, whose rows are settled; `due` says whether an epoch without lines is due next. It takes
    /// no memory.
    pub fn commit(&mut self, file: <D::Stage as Stage>::Sealed, due: bool) -> Result<(), DiskFault>
        requires ready { ready_of self.old.scope self.old.core ≡ ready.Commit }
        requires right { (D.tells × O.tells self.old.opening self.old.scope (D.history self.old.opened)) → D.Stage.sealed file ≡ truth ((O.opening self.old.opening).job.course (cuts_of O.opening self.old)) (name.Commit self.old.core.front.committed) }
        requires due { (D.tells × O.tells self.old.opening self.old.scope (D.history self.old.opened)) → due ≡ (O.opening self.old.opening).due (cuts_of O.opening self.old) (self.old.core.front.committed + 1) }
        ensures done { OnOk result (self.new ≡ did self.old self.new.disk (entry.Commit self.old.core.front.committed due ∷ [])) }
        ensures stopped { OnErr result ((self.new ≡ did self.old self.new.disk (entry.Stop cause.DiskFault ∷ [])) × Rises (D.faults self.old.disk) (D.faults self.new.disk)) }
        ensures counted { D.faults self.old.disk ≤ D.faults self.new.disk }
    {
        let epoch = self.board.front().committed;
        match self.disk.publish(file, Name::Commit(epoch)) {
            Ok(()) => {
                self.board.commit(due);
                self.entries.push_reserved(Entry::Commit(epoch, due));
                Ok(())
            }
            Err(fault) => {
                halt(&mut self.board, &mut self.entries, Cause::DiskFault);
                Err(fault)
            }
        }
    }

    /// Plans the next epoch: it has what was found and no plan covers, up to the cap of each part.
    ///
    /// All memory is taken before a name is changed. `Full` comes exactly where as many epochs are planned as there may be.
    pub fn plan(&mut self, alloc: Global, watermark: Option<i64>) -> Result<(), Cause>
        requires ready { ready_of self.old.scope self.old.core ≡ ready.Plan }
        requires printed { ForSome watermark IsStampTime }
        requires right { (D.tells × O.tells self.old.opening self.old.scope (D.history self.old.opened)) → watermark ≡ ((O.opening self.old.opening).job.course (cuts_of O.opening self.old)).watermark self.old.core.front.planned }
        ensures done { OnOk result (self.new ≡ did self.old self.new.disk (entry.Plan self.old.core.front.planned ∷ [])) }
        ensures stopped { IfErr result (λ f. (self.new ≡ did self.old self.new.disk (entry.Stop f ∷ [])) × IsUnplanned self.old.core.front.planned (D.faults self.old.disk) (D.faults self.new.disk) f) }
        ensures full { self.old.core.front.planned ≡ 4294967295 → IsErrOf result cause.Full }
        ensures counted { D.faults self.old.disk ≤ D.faults self.new.disk }
    {
        match self.board.plan(alloc, &self.scope, watermark) {
            Ok(next) => self.publish_plan(alloc, next),
            Err(cause) => {
                self.stop(cause);
                Err(cause)
            }
        }
    }

    fn publish_plan(&mut self, alloc: Global, next: Next) -> Result<(), Cause>
        requires may { May self.old.scope self.old.core (entry.Plan self.old.core.front.planned) }
        requires board { next.board ≡ after self.old.scope self.old.core (entry.Plan self.old.core.front.planned) }
        requires right { (D.tells × O.tells self.old.opening self.old.scope (D.history self.old.opened)) → next.text ≡ truth ((O.opening self.old.opening).job.course (cuts_by self.old.scope (cuts_of O.opening self.old) self.old.core (entry.Plan self.old.core.front.planned))) (name.Plan self.old.core.front.planned) }
        ensures done { OnOk result (self.new ≡ did self.old self.new.disk (entry.Plan self.old.core.front.planned ∷ [])) }
        ensures stopped { IfErr result (λ f. (self.new ≡ did self.old self.new.disk (entry.Stop f ∷ [])) × HasRisen f (D.faults self.old.disk) (D.faults self.new.disk)) }
        ensures counted { D.faults self.old.disk ≤ D.faults self.new.disk }
    {
        let Next { board, text } = next;
        let Some(()) = make_plan_room(&mut self.entries, &mut self.names, board.count()) else {
            halt(&mut self.board, &mut self.entries, Cause::NoMemory);
            return Err(Cause::NoMemory);
        };
        let file = match seal(alloc, &mut self.disk, text.as_slice()) {
            Ok(file) => file,
            Err(error) => {
                let cause = Cause::from(error);
                halt(&mut self.board, &mut self.entries, cause);
                return Err(cause);
            }
        };
        let epoch = self.board.front().planned;
        match self.disk.publish(file, Name::Plan(epoch)) {
            Ok(()) => {
                self.board = board;
                self.entries.push_reserved(Entry::Plan(epoch));
                Ok(())
            }
            Err(_) => {
                halt(&mut self.board, &mut self.entries, Cause::DiskFault);
                Err(Cause::DiskFault)
            }
        }
    }

    /// Stops the ledger, for what failed before anything was done. It takes no memory.
    pub fn stop(&mut self, cause: Cause)
        requires running { self.old.core.front.stop ≡ None }
        requires cause { HasCause self.old.scope self.old.core cause }
        ensures { self.new ≡ did self.old self.old.disk (entry.Stop cause ∷ []) }
    {
        halt(&mut self.board, &mut self.entries, cause);
    }
}

/// Notes a Stop.
pub(crate) fn halt(board: &mut Board, entries: &mut Vec<Entry>, cause: Cause)
    requires { length entries.old.items < vec_capacity entries.old }
    ensures board { board.new ≡ with_front board.old (stopped_front board.old.front (Some cause)) }
    ensures items { entries.new.items ≡ entries.old.items ++ entry.Stop cause ∷ [] }
    ensures capacity { vec_capacity entries.new ≡ vec_capacity entries.old }
{
    board.stop(cause);
    entries.push_reserved(Entry::Stop(cause));
}

/// Notes a version that came back. Answers the Stop that this brings about.
fn note_version(board: &mut Board, entries: &mut Vec<Entry>, id: TaskId) -> Result<(), Cause>
    requires away { at board.old id ≡ some place.Away }
    requires room { length entries.old.items < vec_capacity entries.old }
    ensures board { (scope : Scope) → board.new ≡ after scope board.old (entry.Version id) }
    ensures items { entries.new.items ≡ entries.old.items ++ entry.Version id ∷ [] }
    ensures capacity { vec_capacity entries.new ≡ vec_capacity entries.old }
    ensures answer { result ≡ answer (due board.old id None) }
{
    let stop = board.take_version(id);
    entries.push_reserved(Entry::Version(id));
    answer(stop)
}

/// Notes a version that came back and could not be published.
fn note_missed(board: &mut Board, entries: &mut Vec<Entry>, id: TaskId)
    requires away { at board.old id ≡ some place.Away }
    requires room { length entries.old.items < vec_capacity entries.old }
    ensures board { (scope : Scope) → board.new ≡ after scope board.old (entry.Missed id) }
    ensures items { entries.new.items ≡ entries.old.items ++ entry.Missed id ∷ [] }
    ensures capacity { vec_capacity entries.new ≡ vec_capacity entries.old }
{
    board.miss(id);
    entries.push_reserved(Entry::Missed(id));
}

/// How many entries can come before the next sync, with so many tasks: a claim and a report of each, the rows and the commit, a Stop,
/// and the sync or the plan itself.
pub(crate) fn room_of(tasks: usize) -> usize
    requires { tasks ≤ 2 ^ 40 }
    ensures { result ≡ 2 * tasks + 4 }
{
    2 * tasks + 4
}

/// Makes room for so many entries more.
pub(crate) fn make_room(entries: &mut Vec<Entry>, more: usize) -> Option<()>
    ensures items { entries.new.items ≡ entries.old.items }
    ensures kept { vec_capacity entries.old ≤ vec_capacity entries.new }
    ensures room { IfSome result (λ made. length entries.old.items + more ≤ vec_capacity entries.new) }
{
    match entries.reserve(more) {
        Ok(()) => Some(()),
        Err(_) => None,
    }
}

/// So much room, and some for each snapshot that is being made.
pub(crate) fn with_claimed(room: usize, names: &Names) -> Option<usize>
    ensures { IfSome result (λ sum. sum ≡ room + length names.now.claimed.items) }
{
    room.checked_add(names.claimed.as_slice().len())
}

/// Makes room for a sync, and for all entries that can come before the next.
fn make_sync_room(entries: &mut Vec<Entry>, names: &mut Names, tasks: usize) -> Option<()>
    requires { tasks ≤ 2 ^ 40 }
    ensures items { entries.new.items ≡ entries.old.items }
    ensures kept { vec_capacity entries.old ≤ vec_capacity entries.new }
    ensures room { IfSome result (λ made. length entries.old.items + (2 * tasks + 4) + length names.old.claimed.items ≤ vec_capacity entries.new) }
    ensures names { MakesSettled names.old names.new result }
{
    let more = with_claimed(room_of(tasks), names)?;
    let made = make_settled(names);
    make_room(entries, more)?;
    made
}

/// Makes room for all entries and names that can come before the next sync.
fn make_plan_room(entries: &mut Vec<Entry>, names: &mut Names, tasks: usize) -> Option<()>
    requires { tasks ≤ 2 ^ 40 }
    ensures items { entries.new.items ≡ entries.old.items }
    ensures kept { vec_capacity entries.old ≤ vec_capacity entries.new }
    ensures room { IfSome result (λ made. length entries.old.items + (2 * tasks + 4) + length names.old.claimed.items ≤ vec_capacity entries.new) }
    ensures names { MakesRoom (2 * tasks + 4) names.old names.new result }
{
    let more = with_claimed(room_of(tasks), names)?;
    let made = make_names_room(names, room_of(tasks));
    make_room(entries, more)?;
    made
}

fn answer(stop: Option<Cause>) -> Result<(), Cause>
    ensures { result ≡ answer stop }
{
    match stop {
        None => Ok(()),
        Some(cause) => Err(cause),
    }
}
