//! What is next, and how tasks are handed out.

ghost use Rattle.std.specs.Prelude.{◌≡◌, ◌≢◌, ◌<◌, ◌^◌, [], ◌∷◌, Option, Some, None, IfSome, MatchOption};
ghost use Rattle.ssq_outside.specs.declared.gate.Kind.TheVariants as kind;
ghost use Rattle.ssq_board.specs.declared.front.Cause.{Cause as CauseOf};
ghost use Rattle.ssq_board.specs.declared.front.Entry.TheVariants as entry;
ghost use Rattle.ssq_board.specs.declared.front.Ready.TheVariants as ready;
ghost use Rattle.ssq_board.specs.Core.{May, ready_of};
ghost use Rattle.ssq_ledger.specs.Shown.{did};
ghost use Rattle.ssq_desk.specs.Handed.{IsMapOf, IsReduceOf, IsOutOf, IsTaskOf};
ghost use Rattle.ssq_desk.specs.Tasks.{id_of, map_id, out_id, reduce_id};

use crate::desk::{Desk, OutWork};
use crate::hand::{
    raise_all, state_with, take_buckets, take_held, take_log, take_room, take_rows, take_stage,
};
use crate::task::Task;
use ssq_board::Ready;
use ssq_feed::MapTask;
use ssq_outside::{Disk, Kind, Log, TaskId};
use ssq_task::{OutTask, ReduceTask};
use ssq_water::watermark;
use std::mem;

/// The epoch of a task: its number has 32 bits.
fn epoch_of(id: TaskId) -> u32
    ensures number { result ≡ id.epoch }
    ensures few { result < 2 ^ 32 }
{
    id.epoch
}

impl<'a, D: Disk, L: Log> Desk<'a, D, L> {
    /// What is next.
    pub fn ready(&self) -> Ready
        ensures { result ≡ ready_of self.now.scope self.now.core }
    {
        self.ledger.ready()
    }

    fn claim_map(&mut self, id: TaskId) -> MapTask<'a, L>
        requires map { id.kind ≡ kind.Map }
        requires may { May self.old.scope self.old.core (entry.Claim id) }
        ensures did { self.new ≡ did self.old self.old.disk (entry.Claim id ∷ []) }
        ensures id { (result.number ≡ id.number) × (result.epoch ≡ id.epoch) }
        ensures task { IsMapOf D.tells L.tells D.history L.lines L.available L.answers L.faults self.new result }
        ensures back { (fault : Option CauseOf) → May self.new.scope self.new.core (entry.Report (map_id result.epoch result.number) fault) }
    {
        self.ledger.is_legal();
        self.ledger.is_in_order();
        let number = id.number as usize;
        let to = self.ledger.ends()[number].end;
        let part_log = &mut self.load.part_logs[number];
        let (stream, part, from) = (part_log.stream, part_log.part, part_log.from);
        let log = take_log(part_log);
        self.ledger.claim(id);
        MapTask {
            view: self.load.view,
            epoch: id.epoch,
            number: id.number,
            stream,
            part,
            from,
            to,
            log,
        }
    }

    fn claim_reduce(&mut self, id: TaskId) -> ReduceTask<'a, D::Stage>
        requires reduce { id.kind ≡ kind.Reduce }
        requires may { May self.old.scope self.old.core (entry.Claim id) }
        ensures did { self.new ≡ did self.old self.old.disk (entry.Claim id ∷ []) }
        ensures id { (result.partition ≡ id.number) × (result.epoch ≡ id.epoch) }
        ensures task { IsReduceOf D.tells L.tells D.history L.lines D.Stage.written self.new result }
        ensures back { (fault : Option CauseOf) → May self.new.scope self.new.core (entry.Report (reduce_id result.epoch result.partition) fault) }
    {
        self.ledger.is_legal();
        self.ledger.is_in_order();
        let epoch = epoch_of(id);
        let watermark = watermark(&self.load.seen, self.load.view.bound);
        let number = id.number as usize;
        let held = take_held(&mut self.load.held, number);
        let share = &mut self.load.shares[number];
        let stage = take_stage(share);
        let mut rows = take_room(self.alloc, share);
        take_buckets(self.alloc, &mut self.load.part_logs, id.number, &mut rows);
        self.ledger.claim(id);
        ReduceTask {
            view: self.load.view,
            epoch,
            partition: id.number,
            watermark,
            rows,
            state: state_with(held, stage),
        }
    }

    fn claim_out(&mut self, id: TaskId) -> OutTask<'a, D::Stage>
        requires out { (id.kind ≡ kind.Out) × (id.number ≡ 0) }
        requires may { May self.old.scope self.old.core (entry.Claim id) }
        ensures did { self.new ≡ did self.old self.old.disk (entry.Claim id ∷ []) }
        ensures id { result.epoch ≡ id.epoch }
        ensures task { IsOutOf D.tells L.tells D.history L.lines D.Stage.written self.new result }
        ensures back { (fault : Option CauseOf) → May self.new.scope self.new.core (entry.Report (out_id result.epoch) fault) }
    {
        self.ledger.is_legal();
        self.ledger.is_in_order();
        let Some(work) = mem::replace(&mut self.load.out, None) else {
            unreachable!()
        };
        let OutWork {
            mut rows,
            mut seen,
            stages,
        } = work;
        take_rows(self.alloc, &mut self.load.shares, &mut rows);
        raise_all(&mut seen, self.load.part_logs.as_slice());
        self.ledger.claim(id);
        OutTask {
            view: self.load.view,
            epoch: id.epoch,
            seen,
            rows,
            stages,
        }
    }

    /// Hands out the next task: `None` exactly where none is ready. It takes no memory. A task that was handed out may be reported.
    pub fn claim(&mut self) -> Option<Task<'a, L, D::Stage>>
        ensures claimed { MatchOption result ((ready_of self.old.scope self.old.core ≢ ready.Task) × (self.new ≡ self.old))
            (λ task. May self.old.scope self.old.core (entry.Claim (id_of task)) × (self.new ≡ did self.old self.old.disk (entry.Claim (id_of task) ∷ []))) }
        ensures task { IfSome result (IsTaskOf D.tells L.tells D.history L.lines L.available L.answers L.faults D.Stage.written self.new) }
        ensures back { IfSome result (λ task. (fault : Option CauseOf) → May self.new.scope self.new.core (entry.Report (id_of task) fault)) }
    {
        let id = self.ledger.next_task()?;
        match id.kind {
            Kind::Map => Some(Task::Map(self.claim_map(id))),
            Kind::Reduce => Some(Task::Reduce(self.claim_reduce(id))),
            Kind::Out => Some(Task::Out(self.claim_out(id))),
            Kind::Upkeep => unreachable!(),
        }
    }
}
