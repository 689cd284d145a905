//! How the result of the out task is taken back, and the rows of its epoch are published.

ghost use Rattle.std.specs.Prelude.{◌≡◌, ◌≤◌, [], ◌∷◌, Some, None, IfSome, IfErr, OnOk};
ghost use Rattle.ssq_outside.specs.Faults.{Rises};
ghost use Rattle.ssq_board.specs.declared.front.Entry.TheVariants as entry;
ghost use Rattle.ssq_board.specs.declared.front.Cause.TheVariants as cause;
ghost use Rattle.ssq_board.specs.Core.{May, HasCause, due};
ghost use Rattle.ssq_ledger.specs.Shown.{HasRisen, did, answer};
ghost use Rattle.ssq_task.specs.declared.out.GatherFault.TheVariants as gather;
ghost use Rattle.ssq_task.specs.Gathering.{IsGathered, SealCause};
ghost use Rattle.ssq_desk.specs.Tasks.{out_id};
ghost use Rattle.ssq_desk.specs.Handed.{IsOutOf};
ghost use Rattle.ssq_desk.specs.Results.{cause_of_gather, fault_of};
ghost use Rattle.ssq_desk.specs.Published.{IsOut, AreRowsOf, IsCommitOf, brings, cause_of_left};

use crate::desk::{Desk, Pending};
use ssq_board::Cause;
use ssq_ledger::{Ledger, Opening};
use ssq_outside::{Disk, Kind, Log, Stage, TaskId};
use ssq_task::{Aside, GatherFault, Gathered, Remnant, SealedEpoch};
use ssq_terms::tasks_bring_the_epoch;
use ssq_water::Seen;

/// Why an out task brought nothing.
fn cause_of_gather(fault: GatherFault) -> Cause
    ensures { result ≡ cause_of_gather fault }
{
    match fault {
        GatherFault::DiskFault => Cause::DiskFault,
        GatherFault::NoMemory => Cause::NoMemory,
    }
}

/// The rows, and the commit with the greatest times up to it.
fn apart<F: Drop>(files: SealedEpoch<F>, seen: Seen) -> (F, Pending<F>)
    ensures rows { result.0 ≡ files.rows }
    ensures commit { result.1 ≡ record { commit = files.commit; seen = seen; count = files.count } }
{
    let SealedEpoch {
        rows,
        commit,
        count,
    } = files;
    (
        rows,
        Pending {
            commit,
            seen,
            count,
        },
    )
}

/// Takes away what is left of files that were not both sealed. Their faults count as the disk's.
fn discard<D: Disk, O: Opening>(
    ledger: &mut Ledger<D, O>,
    left: Remnant<D::Stage, <D::Stage as Stage>::Sealed>,
)
    ensures did { ledger.new ≡ did ledger.old ledger.new.disk [] }
    ensures counted { D.faults ledger.old.disk ≤ D.faults ledger.new.disk }
    ensures cause { (before : _) → SealCause D.Stage.faults before left → Rises (D.faults ledger.old.disk) (D.faults ledger.new.disk) }
{
    let Remnant { rows, commit } = left;
    if let Aside::Open(rows) = rows {
        ledger.discard(rows);
    }
    ledger.discard(commit);
}

impl<'a, D: Disk, L: Log> Desk<'a, D, L> {
    /// Takes the result of the out task that was handed out. Where it brought its files and the desk runs, the rows of the epoch are
    /// published after its report. Answers the Stop that it brings about.
    ///
    /// The commit is kept, and published by `commit` once the rows are settled. Of a desk that was stopped nothing is published, and what
    /// is left of files that were not sealed is taken away.
    pub fn publish_out(&mut self, done: Gathered<'a, D::Stage>) -> Result<(), Cause>
        requires may { May self.old.scope self.old.core (entry.Report (out_id done.epoch) (fault_of cause_of_left done.outcome)) }
        requires of { (task : _) × IsOutOf D.tells L.tells D.history L.lines D.Stage.written self.old task × IsGathered D.Stage.tells D.Stage.written D.Stage.sealed D.Stage.faults task done }
        ensures out { IsOut (brings self.old.core.front.stop (fault_of cause_of_left done.entry.outcome)) self.old self.new (out_id done.entry.epoch) (fault_of cause_of_left done.entry.outcome) result (Rises (D.faults self.old.disk) (D.faults self.new.disk)) }
        ensures cause { IfErr result (λ f. HasRisen f (D.faults self.old.disk) (D.faults self.new.disk)) }
        ensures counted { D.faults self.old.disk ≤ D.faults self.new.disk }
    {
        self.ledger.is_legal();
        self.ledger.is_in_order();
        tasks_bring_the_epoch();
        let Gathered {
            epoch,
            seen,
            outcome,
            ..
        } = done;
        match outcome {
            Ok(files) => {
                let (rows, pending) = apart(files, seen);
                self.take_files(epoch, rows, pending)
            }
            Err((fault, left)) => self.take_left(epoch, fault, left),
        }
    }

    /// Takes the out task back with what is left of its files.
    fn take_left(
        &mut self,
        epoch: u32,
        fault: GatherFault,
        left: Remnant<D::Stage, <D::Stage as Stage>::Sealed>,
    ) -> Result<(), Cause>
        requires may { May self.old.scope self.old.core (entry.Report (out_id epoch) (Some (cause_of_gather fault))) }
        requires cause { fault ≡ gather.DiskFault → (before : _) × SealCause D.Stage.faults before left }
        ensures out { IsOut (brings self.old.core.front.stop (Some (cause_of_gather fault))) self.old self.new (out_id epoch) (Some (cause_of_gather fault)) result (Rises (D.faults self.old.disk) (D.faults self.new.disk)) }
        ensures cause { IfErr result (λ f. HasRisen f (D.faults self.old.disk) (D.faults self.new.disk)) }
        ensures counted { D.faults self.old.disk ≤ D.faults self.new.disk }
    {
        self.ledger.is_in_order();
        discard(&mut self.ledger, left);
        self.report_out(epoch, Some(cause_of_gather(fault)))
    }

    /// Takes the out task back with its files.
    fn take_files(
        &mut self,
        epoch: u32,
        rows: <D::Stage as Stage>::Sealed,
        pending: Pending<<D::Stage as Stage>::Sealed>,
    ) -> Result<(), Cause>
        requires may { May self.old.scope self.old.core (entry.Report (out_id epoch) None) }
        requires rows { AreRowsOf D.tells L.tells D.history L.lines D.Stage.sealed self.old rows }
        requires commit { IsCommitOf D.tells L.tells D.history L.lines D.Stage.sealed self.old pending }
        ensures out { IsOut (brings self.old.core.front.stop None) self.old self.new (out_id epoch) None result (Rises (D.faults self.old.disk) (D.faults self.new.disk)) }
        ensures cause { IfErr result (λ f. HasRisen f (D.faults self.old.disk) (D.faults self.new.disk)) }
        ensures counted { D.faults self.old.disk ≤ D.faults self.new.disk }
    {
        if self.ledger.front().stop.is_some() {
            return self.report_out(epoch, None);
        }
        self.ledger.is_in_order();
        let _ = self.report_out(epoch, None);
        self.publish_rows(rows, pending)
    }

    /// Takes the out task back.
    fn report_out(&mut self, epoch: u32, fault: Option<Cause>) -> Result<(), Cause>
        requires may { May self.old.scope self.old.core (entry.Report (out_id epoch) fault) }
        requires cause { IfSome fault (HasCause self.old.scope self.old.core) }
        ensures did { self.new ≡ did self.old self.old.disk (entry.Report (out_id epoch) fault ∷ []) }
        ensures answer { result ≡ answer (due self.old.core (out_id epoch) fault) }
    {
        self.ledger.is_legal();
        self.ledger.is_in_order();
        self.ledger.report(
            TaskId {
                epoch,
                kind: Kind::Out,
                number: 0,
            },
            fault,
        )
    }

    /// Publishes the rows of the epoch that runs, and keeps its commit for later.
    fn publish_rows(
        &mut self,
        rows: <D::Stage as Stage>::Sealed,
        pending: Pending<<D::Stage as Stage>::Sealed>,
    ) -> Result<(), Cause>
        requires may { May self.old.scope self.old.core (entry.OutFile self.old.core.front.committed) }
        requires rows { AreRowsOf D.tells L.tells D.history L.lines D.Stage.sealed self.old rows }
        requires commit { IsCommitOf D.tells L.tells D.history L.lines D.Stage.sealed self.old pending }
        ensures done { OnOk result (self.new ≡ did self.old self.new.disk (entry.OutFile self.old.core.front.committed ∷ [])) }
        ensures stopped { IfErr result (λ f. (f ≡ cause.DiskFault) × (self.new ≡ did self.old self.new.disk (entry.Stop f ∷ [])) × Rises (D.faults self.old.disk) (D.faults self.new.disk)) }
        ensures counted { D.faults self.old.disk ≤ D.faults self.new.disk }
    {
        self.load.pending = Some(pending);
        match self.ledger.publish_rows(rows) {
            Ok(()) => Ok(()),
            Err(_) => Err(Cause::DiskFault),
        }
    }
}
