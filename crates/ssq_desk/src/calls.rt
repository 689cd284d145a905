//! What is done between the tasks: names are synced, and the epoch that runs is committed.

ghost use Rattle.std.specs.Prelude.{◌≡◌, ◌≤◌, ◌<◌, ◌^◌, [], ◌∷◌, map, length, get_or, true, None, Some, IfErr, OnOk, OnErr};
ghost use Rattle.ssq_shape.specs.Late.{closes};
ghost use Rattle.ssq_outside.specs.Faults.{Rises};
ghost use Rattle.ssq_board.specs.declared.front.Entry.TheVariants as entry;
ghost use Rattle.ssq_board.specs.declared.front.Cause.TheVariants as cause;
ghost use Rattle.ssq_board.specs.declared.front.Ready.TheVariants as ready;
ghost use Rattle.ssq_board.specs.Core.{ready_of};
ghost use Rattle.ssq_ledger.specs.Shown.{HasRisen, did};
ghost use Rattle.ssq_desk.specs.Closing.{lines_between};

use crate::desk::{Desk, Load, PartLog, Pending};
use crate::due::is_due;
use crate::told::Told;
use ssq_board::Cause;
use ssq_outside::{Disk, DiskFault, Log, Stage};
use ssq_plans::PartEnd;
use ssq_terms::tasks_have_terms;
use std::mem;

impl<'a, D: Disk, L: Log> Desk<'a, D, L> {
    /// Syncs names: the plan of the epoch that runs, its rows, a commit, or what upkeep changed.
    pub fn sync(&mut self) -> Result<(), Cause>
        requires { self.old.core.front.stop ≡ None }
        ensures done { OnOk result ((clock : _) × (self.new ≡ did self.old self.new.disk (entry.Sync clock ∷ []))) }
        ensures stopped { IfErr result (λ f. (self.new ≡ did self.old self.new.disk (entry.Stop f ∷ [])) × HasRisen f (D.faults self.old.disk) (D.faults self.new.disk)) }
        ensures counted { D.faults self.old.disk ≤ D.faults self.new.disk }
    {
        self.ledger.sync()
    }

    /// Publishes the commit of the epoch that runs, whose rows are settled. It takes no memory.
    ///
    /// It tells whether an epoch without lines is due next: the query shows more as the watermark rises, and by the epoch's times it does. None is
    /// due of a query that doesn't close, on any disk.
    pub fn commit(&mut self) -> Result<(), DiskFault>
        requires { ready_of self.old.scope self.old.core ≡ ready.Commit }
        ensures done { OnOk result ((due : _) × (self.new ≡ did self.old self.new.disk (entry.Commit self.old.core.front.committed due ∷ [])) × (due ≡ true → closes self.old.opening.view.bound.now ≡ true)) }
        ensures stopped { OnErr result ((self.new ≡ did self.old self.new.disk (entry.Stop cause.DiskFault ∷ [])) × Rises (D.faults self.old.disk) (D.faults self.new.disk)) }
        ensures counted { D.faults self.old.disk ≤ D.faults self.new.disk }
    {
        self.ledger.is_legal();
        self.ledger.is_in_order();
        tasks_have_terms();
        let epoch = self.ledger.front().committed;
        let pending = take_pending(&mut self.load.pending);
        let told = tell(&self.load, self.ledger.ends(), epoch, pending.count);
        let due = is_due(self.load.view.bound, &pending.seen, told.watermark);
        self.ledger.commit(pending.commit, due)?;
        self.load.told.push_reserved(told);
        self.load.seen = pending.seen;
        Ok(())
    }
}

/// Takes the commit out that is to be published.
fn take_pending<F: Drop>(pending: &mut Option<Pending<F>>) -> Pending<F>
    requires { (own : _) × (pending.old ≡ Some own) }
    ensures is { pending.old ≡ Some result }
    ensures none { pending.new ≡ None }
{
    let Some(own) = mem::replace(pending, None) else {
        unreachable!()
    };
    own
}

/// How many lines lie between the offsets where the parts begin and these ends.
fn lines_between<L: Log>(part_logs: &[PartLog<L>], ends: &[PartEnd]) -> u64
    requires { lines_between (map (λ part_log. part_log.from) part_logs.now) (map (λ end. end.end) ends.now) < 2 ^ 64 }
    ensures { result ≡ lines_between (map (λ part_log. part_log.from) part_logs.now) (map (λ end. end.end) ends.now) }
{
    match (part_logs.split_first(), ends.split_first()) {
        (Some((part_log, part_logs)), Some((end, ends))) => {
            end.end.saturating_sub(part_log.from) + lines_between(part_logs, ends)
        }
        _ => 0,
    }
}

/// What is told of the epoch that runs.
fn tell<'a, L: Log, S: Stage>(
    load: &Load<'a, L, S>,
    ends: &[PartEnd],
    epoch: u32,
    rows: u64,
) -> Told
    requires plan { epoch < length load.now.plans.items }
    requires few { lines_between (map (λ part_log. part_log.from) load.now.part_logs.items) (map (λ end. end.end) ends.now) < 2 ^ 64 }
    ensures epoch { result.epoch ≡ epoch }
    ensures lines { result.lines ≡ lines_between (map (λ part_log. part_log.from) load.now.part_logs.items) (map (λ end. end.end) ends.now) }
    ensures rows { result.rows ≡ rows }
    ensures watermark { (default : _) → result.watermark ≡ (get_or load.now.plans.items epoch default).watermark }
{
    Told {
        epoch,
        lines: lines_between(load.part_logs.as_slice(), ends),
        watermark: load.plans[epoch as usize].watermark,
        rows,
    }
}
