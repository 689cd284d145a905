//! How the results of reduce tasks are taken back.

ghost use Rattle.std.specs.Prelude.{◌≡◌, ◌<◌, ◌≤◌, [], ◌∷◌, length, set, Some, None, Ok, Err, IfSome, IsErrOf, IsSomeAnd};
ghost use Rattle.ssq_outside.specs.Faults.{Rises};
ghost use Rattle.ssq_board.specs.declared.front.Cause.TheVariants as cause;
ghost use Rattle.ssq_board.specs.declared.front.Entry.TheVariants as entry;
ghost use Rattle.ssq_board.specs.Core.{May, due};
ghost use Rattle.ssq_ledger.specs.Shown.{did, answer};
ghost use Rattle.ssq_task.specs.Reducing.{IsReduced};
ghost use Rattle.ssq_desk.specs.Tasks.{reduce_id};
ghost use Rattle.ssq_desk.specs.Handed.{IsReduceOf};
ghost use Rattle.ssq_desk.specs.Results.{IsReturned, cause_of_reduce, cause_of_failed, delta_of, fault_of, key_of_reduce, reduced_by};

use crate::desk::Desk;
use ssq_board::Cause;
use ssq_ledger::{Ledger, Opening};
use ssq_outside::{Disk, Kind, Log, Stage, TaskId};
use ssq_task::{Held, ReduceFault, Reduced, ReducedRows};
use ssq_terms::{partitions_continue, partitions_overflow, tasks_have_terms};
use ssq_value::Row;

/// Why a reduce task brought nothing, and the key on which it failed, where it is a key.
fn cause_of_reduce(fault: ReduceFault) -> (Cause, Option<Row>)
    ensures cause { result.0 ≡ cause_of_reduce fault }
    ensures key { result.1 ≡ key_of_reduce fault }
{
    match fault {
        ReduceFault::Overflow { key } => (Cause::KeyOverflow, Some(key)),
        ReduceFault::DiskFault => (Cause::DiskFault, None),
        ReduceFault::NoMemory => (Cause::NoMemory, None),
    }
}

fn reduce_id(epoch: u32, partition: u32) -> TaskId
    ensures { result ≡ reduce_id epoch partition }
{
    TaskId {
        epoch,
        kind: Kind::Reduce,
        number: partition,
    }
}

/// Takes a file aside away, if there is one. Its faults count as the disk's.
fn discard<D: Disk, O: Opening>(ledger: &mut Ledger<D, O>, stage: Option<D::Stage>)
    ensures did { ledger.new ≡ did ledger.old ledger.new.disk [] }
    ensures counted { D.faults ledger.old.disk ≤ D.faults ledger.new.disk }
    ensures cause { IsSomeAnd stage (λ stage. 0 < D.Stage.faults stage) → Rises (D.faults ledger.old.disk) (D.faults ledger.new.disk) }
{
    if let Some(stage) = stage {
        ledger.discard(stage);
    }
}

/// Puts back what a partition keeps, if it keeps anything.
fn put_back(all: &mut Vec<Option<Held>>, partition: u32, held: Option<Held>)
    requires there { IfSome held (λ own. partition < length all.old.items) }
    requires nowhere { held ≡ None → length all.old.items ≤ partition }
    ensures { all.new.items ≡ set all.old.items partition held }
{
    if let Some(held) = held {
        all[partition as usize] = Some(held);
    }
}

impl<'a, D: Disk, L: Log> Desk<'a, D, L> {
    /// Takes the result of a reduce task that was handed out. The delta that it brings is published, but not after a Stop; and what it left of
    /// a file aside is taken away. Answers the Stop that it brings about.
    ///
    /// Where a key overflows, the desk runs on until the epoch's other reduce tasks are back, and stops for the least such key then.
    pub fn report_reduced(&mut self, done: Reduced<'a, D::Stage>) -> Result<(), Cause>
        requires may { May self.old.scope self.old.core (entry.Report (reduce_id done.epoch done.partition) (fault_of cause_of_failed done.outcome)) }
        requires of { (task : _) × IsReduceOf D.tells L.tells D.history L.lines D.Stage.written self.old task × IsReduced D.Stage.tells D.Stage.written D.Stage.sealed D.Stage.faults task done }
        ensures did { IsReturned (delta_of done.entry.outcome) self.old self.new (reduce_id done.entry.epoch done.entry.partition) (fault_of cause_of_failed done.entry.outcome) result (Rises (D.faults self.old.disk) (D.faults self.new.disk)) }
        ensures cause { IsErrOf result cause.DiskFault → Rises (D.faults self.old.disk) (D.faults self.new.disk) }
        ensures counted { D.faults self.old.disk ≤ D.faults self.new.disk }
    {
        let Reduced {
            epoch,
            partition,
            held,
            outcome,
            ..
        } = done;
        match outcome {
            Ok(brought) => self.take_brought(epoch, partition, held, brought),
            Err((fault, stage)) => self.take_failed(epoch, partition, held, fault, stage),
        }
    }

    /// Takes a reduce task back with its rows, and with its delta where its partition keeps state.
    fn take_brought(
        &mut self,
        epoch: u32,
        partition: u32,
        held: Option<Held>,
        brought: ReducedRows<<D::Stage as Stage>::Sealed>,
    ) -> Result<(), Cause>
        requires may { May self.old.scope self.old.core (entry.Report (reduce_id epoch partition) None) }
        requires of { (task : _) × IsReduceOf D.tells L.tells D.history L.lines D.Stage.written self.old task × (task.epoch ≡ epoch) × (task.partition ≡ partition)
            × IsReduced D.Stage.tells D.Stage.written D.Stage.sealed D.Stage.faults task (reduced_by task held (Ok brought)) }
        ensures did { IsReturned brought.delta self.old self.new (reduce_id epoch partition) None result (Rises (D.faults self.old.disk) (D.faults self.new.disk)) }
        ensures cause { IsErrOf result cause.DiskFault → Rises (D.faults self.old.disk) (D.faults self.new.disk) }
        ensures counted { D.faults self.old.disk ≤ D.faults self.new.disk }
    {
        self.ledger.is_legal();
        self.ledger.is_in_order();
        tasks_have_terms();
        partitions_continue::<D::Stage>();
        partitions_overflow();
        let ReducedRows { rows, delta } = brought;
        self.load.shares[partition as usize].rows = rows;
        put_back(&mut self.load.held, partition, held);
        let id = reduce_id(epoch, partition);
        match delta {
            Some(delta) => self.ledger.report_version(id, delta),
            None => self.ledger.report(id, None),
        }
    }

    /// Takes a reduce task back that failed, with its file aside where that is left.
    fn take_failed(
        &mut self,
        epoch: u32,
        partition: u32,
        held: Option<Held>,
        fault: ReduceFault,
        stage: Option<D::Stage>,
    ) -> Result<(), Cause>
        requires may { May self.old.scope self.old.core (entry.Report (reduce_id epoch partition) (Some (cause_of_reduce fault))) }
        requires of { (task : _) × IsReduceOf D.tells L.tells D.history L.lines D.Stage.written self.old task × (task.epoch ≡ epoch) × (task.partition ≡ partition)
            × IsReduced D.Stage.tells D.Stage.written D.Stage.sealed D.Stage.faults task (reduced_by task held (Err (fault, stage))) }
        ensures did { self.new ≡ did self.old self.new.disk (entry.Report (reduce_id epoch partition) (Some (cause_of_reduce fault)) ∷ []) }
        ensures answer { result ≡ answer (due self.old.core (reduce_id epoch partition) (Some (cause_of_reduce fault))) }
        ensures cause { IsErrOf result cause.DiskFault → Rises (D.faults self.old.disk) (D.faults self.new.disk) }
        ensures counted { D.faults self.old.disk ≤ D.faults self.new.disk }
    {
        discard(&mut self.ledger, stage);
        self.ledger.is_legal();
        self.ledger.is_in_order();
        tasks_have_terms();
        partitions_continue::<D::Stage>();
        partitions_overflow();
        let (cause, key) = cause_of_reduce(fault);
        self.load.shares[partition as usize].key = key;
        put_back(&mut self.load.held, partition, held);
        self.ledger.report(reduce_id(epoch, partition), Some(cause))
    }
}
