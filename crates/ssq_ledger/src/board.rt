//! What a ledger knows: its counts, where the lines of the planned epochs end, and where each task of the epoch that runs is.

ghost use Rattle.std.specs.Prelude.{◌≡◌, ◌≢◌, ◌<◌, ◌≤◌, ◌+◌, ◌^◌, ◌&&◌, length, true, Some, None, IfOk, IfSome, MatchOption, if◌then◌else◌};
ghost use mathlib.Core.Option.{some};
ghost use Rattle.ssq_outside.specs.declared.gate.Kind.TheVariants as kind;
ghost use Rattle.ssq_board.specs.declared.front.Cause.TheVariants as cause;
ghost use Rattle.ssq_board.specs.declared.front.Place.TheVariants as place;
ghost use Rattle.ssq_board.specs.declared.front.Ready.TheVariants as ready;
ghost use Rattle.ssq_board.specs.declared.front.Entry.TheVariants as entry;
ghost use Rattle.ssq_board.specs.Core.{Scope, May, after, next_ends, planned_front, at, moved, tasks_of, with_front, written_front, synced_front, committed_front, stopped_front, is_stopped, or_stop, due, due_stop, ready_of, ready_tasks};
ghost use Rattle.ssq_board.specs.Shown.{first, first_maps, first_outs, first_place, planned_by};
ghost use Rattle.ssq_ledger.specs.Shown.{first_front};

use crate::ends::{all_at, dealt, has_line, is_behind, next_ends};
use crate::places::{are_fine, due_stop, first_waiting, or_stop};
use crate::scope::{Scope, Start};
use ssq_board::{Cause, Front, Place, Ready};
use ssq_outside::{Kind, TaskId};
use ssq_plans::PartEnd;
use std::alloc::{AllocError, Global};
use std::marker::Model;

/// What a ledger knows.
#[derive(Drop)]
pub(crate) struct Board {
    front: Front,
    /// Where the lines of the planned epochs end.
    ends: Vec<PartEnd>,
    maps: Vec<Place>,
    reduces: Vec<Place>,
    outs: Vec<Place>,
}

impl Model for Board {
    ghost use Rattle.ssq_board.specs.Core.{Core};

    ghost Value = { Core };

    ghost view = { λ b. record { front = b.front; ends = b.ends.items; maps = b.maps.items; reduces = b.reduces.items; outs = b.outs.items } };
}

impl Board {
    pub(crate) fn front(&self) -> Front
        ensures { result ≡ self.now.front }
    {
        self.front
    }

    pub(crate) fn ends(&self) -> &[PartEnd]
        ensures { result.now ≡ self.now.ends }
    {
        self.ends.as_slice()
    }

    fn tasks(&self, kind: Kind) -> &[Place]
        ensures { result.now ≡ tasks_of kind self.now }
    {
        match kind {
            Kind::Map => self.maps.as_slice(),
            Kind::Reduce => self.reduces.as_slice(),
            Kind::Out => self.outs.as_slice(),
            Kind::Upkeep => &[],
        }
    }

    /// What is next.
    pub(crate) fn ready(&self, scope: &Scope) -> Ready
        ensures { result ≡ ready_of scope.now self.now }
    {
        let front = self.front;
        if front.stop.is_some() {
            return Ready::Stopped;
        }
        if front.committed < front.planned {
            return self.ready_tasks();
        }
        if !front.settled {
            return Ready::Sync;
        }
        if is_behind(self.ends.as_slice(), scope.available.as_slice()) || front.due {
            return Ready::Plan;
        }
        Ready::Over
    }

    fn ready_tasks(&self) -> Ready
        ensures { result ≡ ready_tasks self.now }
    {
        let front = self.front;
        if !front.fresh {
            return Ready::Sync;
        }
        if first_waiting(self.maps.as_slice()).is_some() {
            return Ready::Task;
        }
        if !are_fine(self.maps.as_slice()) {
            return Ready::Idle;
        }
        if first_waiting(self.reduces.as_slice()).is_some() {
            return Ready::Task;
        }
        if !are_fine(self.reduces.as_slice()) {
            return Ready::Idle;
        }
        if first_waiting(self.outs.as_slice()).is_some() {
            return Ready::Task;
        }
        if !front.written {
            return Ready::Idle;
        }
        if front.settled {
            return Ready::Commit;
        }
        Ready::Sync
    }

    /// The first task that waits, of the first kind of which one does.
    pub(crate) fn first_task(&self, scope: &Scope) -> TaskId
        requires ready { ready_of scope.now self.now ≡ ready.Task }
        requires maps { length self.now.maps ≤ 2 ^ 32 }
        requires reduces { length self.now.reduces ≤ 2 ^ 32 }
        requires outs { length self.now.outs ≤ 1 }
        ensures may { May scope.now self.now (entry.Claim result) }
        ensures out { result.kind ≡ kind.Out → result.number ≡ 0 }
    {
        let epoch = self.front.committed;
        if let Some(number) = first_waiting(self.maps.as_slice()) {
            return TaskId {
                epoch,
                kind: Kind::Map,
                number: number as u32,
            };
        }
        if let Some(number) = first_waiting(self.reduces.as_slice()) {
            return TaskId {
                epoch,
                kind: Kind::Reduce,
                number: number as u32,
            };
        }
        TaskId {
            epoch,
            kind: Kind::Out,
            number: 0,
        }
    }

    /// A task is at this place now.
    fn put(&mut self, id: TaskId, place: Place)
        requires { id.number < length (tasks_of id.kind self.old) }
        ensures { self.new ≡ moved self.old id place }
    {
        let number = id.number as usize;
        match id.kind {
            Kind::Map => self.maps[number] = place,
            Kind::Reduce => self.reduces[number] = place,
            Kind::Out => self.outs[number] = place,
            Kind::Upkeep => {}
        }
    }

    pub(crate) fn claim(&mut self, id: TaskId)
        requires { at self.old id ≡ some place.Waits }
        ensures { self.new ≡ moved self.old id place.Away }
    {
        self.put(id, Place::Away);
    }

    /// Takes a task back. Answers the cause for which its phase stops by that.
    pub(crate) fn report(&mut self, id: TaskId, fault: Option<Cause>) -> Option<Cause>
        requires { at self.old id ≡ some place.Away }
        ensures now { (scope : Scope) → self.new ≡ after scope self.old (entry.Report id fault) }
        ensures stop { result ≡ due self.old id fault }
    {
        self.put(id, Place::Back(fault));
        let stop = self.due(id.kind);
        self.stop_by(stop);
        stop
    }

    /// Takes a reduce task back whose delta was published, or is not to be. Answers the cause for which its phase stops by that.
    pub(crate) fn take_version(&mut self, id: TaskId) -> Option<Cause>
        requires { at self.old id ≡ some place.Away }
        ensures now { (scope : Scope) → self.new ≡ after scope self.old (entry.Version id) }
        ensures stop { result ≡ due self.old id None }
    {
        let settled = both(is_stopped(self.front.stop), self.front.settled);
        let stop = self.report(id, None);
        self.front.settled = settled;
        stop
    }

    /// Takes a reduce task back whose delta could not be published.
    pub(crate) fn miss(&mut self, id: TaskId)
        requires { at self.old id ≡ some place.Away }
        ensures { (scope : Scope) → self.new ≡ after scope self.old (entry.Missed id) }
    {
        self.put(id, Place::Back(Some(Cause::DiskFault)));
        self.stop(Cause::DiskFault);
    }

    /// The cause for which the phase of these tasks is to stop: none where all are stopped.
    fn due(&self, kind: Kind) -> Option<Cause>
        ensures { result ≡ (if is_stopped self.now.front.stop then None else due_stop (tasks_of kind self.now)) }
    {
        if self.front.stop.is_some() {
            None
        } else {
            due_stop(self.tasks(kind))
        }
    }

    pub(crate) fn stop_by(&mut self, stop: Option<Cause>)
        ensures { self.new ≡ with_front self.old (stopped_front self.old.front (or_stop self.old.front.stop stop)) }
    {
        self.front.stop = or_stop(self.front.stop, stop);
    }

    pub(crate) fn stop(&mut self, cause: Cause)
        ensures { self.new ≡ with_front self.old (stopped_front self.old.front (Some cause)) }
    {
        self.front.stop = Some(cause);
    }

    /// The rows of the epoch that runs are published.
    pub(crate) fn write(&mut self)
        requires { self.old.front.stop ≡ None }
        ensures { self.new ≡ with_front self.old (written_front self.old.front) }
    {
        self.front.written = true;
        self.front.settled = false;
    }

    /// Names are settled.
    pub(crate) fn settle(&mut self)
        requires { self.old.front.stop ≡ None }
        ensures { self.new ≡ with_front self.old (synced_front self.old.front) }
    {
        self.front.fresh = true;
        self.front.settled = true;
    }

    /// The commit of the epoch that runs is published; and by its watermark one without lines is due next, or none is.
    pub(crate) fn commit(&mut self, due: bool)
        requires running { self.old.front.stop ≡ None }
        requires last { self.old.front.committed + 1 ≡ self.old.front.planned }
        ensures { self.new ≡ with_front self.old (committed_front self.old.front due) }
    {
        self.front.committed = self.front.planned;
        self.front.settled = false;
        self.front.due = both(due, self.front.has_lines);
    }

    /// The next cut.
    pub(crate) fn next_ends(&self, alloc: Global, scope: &Scope) -> Result<Vec<PartEnd>, AllocError>
        ensures { IfOk result (λ next. next.items ≡ next_ends scope.now.cap self.now.ends scope.now.available) }
    {
        next_ends(
            alloc,
            scope.cap,
            self.ends.as_slice(),
            scope.available.as_slice(),
        )
    }

    /// What is known once the epoch up to the next cut is planned: its tasks are dealt.
    pub(crate) fn planned(
        &self,
        alloc: Global,
        scope: &Scope,
        ends: Vec<PartEnd>,
    ) -> Result<Board, AllocError>
        requires few { self.now.front.planned < 4294967295 }
        requires ends { ends.items ≡ next_ends scope.now.cap self.now.ends scope.now.available }
        ensures { IfOk result (λ next. next ≡ after scope.now self.now (entry.Plan self.now.front.planned)) }
    {
        let maps = dealt(alloc, self.ends.as_slice(), ends.as_slice())?;
        let reduces = all_at(alloc, self.reduces.as_slice().len(), Place::Waits)?;
        let outs = all_at(alloc, 1, Place::Waits)?;
        let front = self.planned_front(scope);
        Ok(Board {
            front,
            ends,
            maps,
            reduces,
            outs,
        })
    }

    fn planned_front(&self, scope: &Scope) -> Front
        requires { self.now.front.planned < 4294967295 }
        ensures { result ≡ planned_front scope.now self.now }
    {
        Front {
            planned: self.front.planned + 1,
            committed: self.front.committed,
            fresh: false,
            settled: false,
            written: false,
            has_lines: is_behind(self.ends.as_slice(), scope.available.as_slice()),
            due: false,
            stop: None,
        }
    }

    /// What is known where a round begins: all that was opened is settled, and an epoch that was opened as planned has its tasks dealt.
    pub(crate) fn first(alloc: Global, scope: &Scope, start: Start) -> Result<Board, AllocError>
        requires { start.is_planned ≡ true → start.committed < 4294967295 }
        ensures { IfOk result (λ begin. begin ≡ first scope.now start) }
    {
        let front = first_front(&start);
        let place = first_place(start.is_planned);
        let maps = first_maps(alloc, &start)?;
        let reduces = all_at(alloc, scope.partitions as usize, place)?;
        let outs = first_outs(alloc, start.is_planned)?;
        Ok(Board {
            front,
            ends: start.to,
            maps,
            reduces,
            outs,
        })
    }

    /// How many places there are.
    pub(crate) fn count(&self) -> usize
        requires { length self.now.maps + length self.now.reduces + length self.now.outs ≤ 2 ^ 40 }
        ensures { result ≡ length self.now.maps + length self.now.reduces + length self.now.outs }
    {
        self.maps.as_slice().len() + self.reduces.as_slice().len() + self.outs.as_slice().len()
    }
}

fn first_place(is_planned: bool) -> Place
    ensures { result ≡ first_place is_planned }
{
    if is_planned {
        Place::Waits
    } else {
        Place::Rests
    }
}

fn first_maps(alloc: Global, start: &Start) -> Result<Vec<Place>, AllocError>
    ensures { IfOk result (λ places. places.items ≡ first_maps start.now.is_planned start.now.from start.now.to) }
{
    if start.is_planned {
        dealt(alloc, start.from.as_slice(), start.to.as_slice())
    } else {
        all_at(alloc, start.to.as_slice().len(), Place::Rests)
    }
}

fn first_outs(alloc: Global, is_planned: bool) -> Result<Vec<Place>, AllocError>
    ensures { IfOk result (λ places. places.items ≡ first_outs is_planned) }
{
    if is_planned {
        all_at(alloc, 1, Place::Waits)
    } else {
        Ok(Vec::new(alloc))
    }
}

fn first_front(start: &Start) -> Front
    requires { start.now.is_planned ≡ true → start.now.committed < 4294967295 }
    ensures { result ≡ first_front start.now }
{
    Front {
        planned: planned_by(start.is_planned, start.committed),
        committed: start.committed,
        fresh: true,
        settled: true,
        written: false,
        has_lines: has_line(start.from.as_slice(), start.to.as_slice()),
        due: start.due,
        stop: None,
    }
}

fn planned_by(is_planned: bool, committed: u32) -> u32
    requires { is_planned ≡ true → committed < 4294967295 }
    ensures { result ≡ planned_by is_planned committed }
{
    if is_planned { committed + 1 } else { committed }
}

fn is_stopped(stop: Option<Cause>) -> bool
    ensures { result ≡ is_stopped stop }
{
    stop.is_some()
}

fn both(one: bool, other: bool) -> bool
    ensures { result ≡ (one && other) }
{
    one && other
}
