//! Upkeep, where all planned epochs are acknowledged.
//!
//! The Stop that a call answers is the desk's from then on.

ghost use Rattle.std.specs.Prelude.{◌≡◌, ◌≢◌, ◌≤◌, ◌⊎◌, true, false, None, IfOk, OnOk, OnErr};
ghost use Rattle.ssq_shape.specs.Late.{closes};
ghost use Rattle.ssq_core.specs.Machine.{upkeep};
ghost use Rattle.ssq_board.specs.declared.front.Ready.TheVariants as ready;
ghost use Rattle.ssq_board.specs.Core.{is_stopped, ready_of};
ghost use Rattle.ssq_board.specs.Rounds.{IsAtRest, left};
ghost use Rattle.ssq_ledger.specs.Shown.{shelf_of};
ghost use Rattle.ssq_ledger.specs.Upkept.{NoneIsDue};
ghost use Rattle.ssq_desk.specs.Contents.{keeping_in};
ghost use Rattle.ssq_desk.specs.Round.{setting_of};
ghost use Rattle.ssq_desk.specs.Whole.{opening_in};
ghost use Rattle.ssq_drive.specs.Damaged.{HasDamaged};
ghost use Rattle.ssq_drive.specs.Driven.{IsCleared, IsDriven, IsEnded, IsMade, IsTidied, IsUpkept, KeepsUp};
ghost use Rattle.ssq_drive.specs.Good.{KeepsGood};

use ssq_board::{Cause, Ready};
use ssq_desk::{Desk, UpkeepTask, keep};
use ssq_outside::{Disk, Gate, Kind, Log, TaskId};
use std::alloc::Global;

fn is_over(next: Ready) -> bool
    ensures over { result ≡ true → next ≡ ready.Over }
    ensures other { result ≡ false → next ≢ ready.Over }
{
    matches!(next, Ready::Over)
}

fn is_plan(next: Ready) -> bool
    ensures { result ≡ true → next ≡ ready.Plan }
{
    matches!(next, Ready::Plan)
}

/// The task's number: its version stands for the epoch.
fn id_of<S>(task: &UpkeepTask<S>) -> TaskId
    ensures { result ≡ upkeep task.now.partition task.now.version }
{
    TaskId {
        epoch: task.version,
        kind: Kind::Upkeep,
        number: task.partition,
    }
}

/// Makes the snapshot that is due next, after the gate. Answers whether one was.
fn make_next<'a, D: Disk, L: Log, G: Gate>(
    alloc: Global,
    gate: &G,
    desk: &mut Desk<'a, D, L>,
) -> Result<bool, Cause>
    requires running { desk.old.core.front.stop ≡ None }
    requires rest { IsAtRest desk.old.core }
    ensures kept { KeepsUp D.faults (HasDamaged D.tells L.tells D.history L.lines) (closes desk.old.opening.view.bound.now) desk.old desk.new }
    ensures good { KeepsGood L.lines (D.tells × L.tells) desk.old desk.new }
    ensures made { IfOk result (IsMade (opening_in L.lines) (keeping_in (setting_of L.lines desk.old.opening)) desk.old desk.new) }
    ensures stopped { OnErr result (is_stopped desk.new.core.front.stop ≡ true) }
{
    desk.is_legal();
    let Some(task) = desk.claim_upkeep(alloc)? else {
        return Ok(false);
    };
    gate.at(id_of(&task));
    desk.report_snapshot(keep(alloc, task))?;
    Ok(true)
}

/// Makes the snapshots that are due, in order.
fn make_due<'a, D: Disk, L: Log, G: Gate>(
    alloc: Global,
    gate: &G,
    desk: &mut Desk<'a, D, L>,
) -> Result<(), Cause>
    requires running { desk.old.core.front.stop ≡ None }
    requires rest { IsAtRest desk.old.core }
    ensures kept { KeepsUp D.faults (HasDamaged D.tells L.tells D.history L.lines) (closes desk.old.opening.view.bound.now) desk.old desk.new }
    ensures good { KeepsGood L.lines (D.tells × L.tells) desk.old desk.new }
    ensures made { OnOk result ((desk.new.core ≡ desk.old.core) × NoneIsDue (keeping_in (setting_of L.lines desk.old.opening)) desk.new.core (shelf_of (opening_in L.lines) desk.new)) }
    ensures stopped { OnErr result (is_stopped desk.new.core.front.stop ≡ true) }
{
    while make_next(alloc, gate, desk)? {}
    Ok(())
}

/// Settles names, where upkeep changed some.
fn tidy<'a, D: Disk, L: Log>(desk: &mut Desk<'a, D, L>) -> Result<(), Cause>
    requires running { desk.old.core.front.stop ≡ None }
    requires rest { IsAtRest desk.old.core }
    ensures kept { KeepsUp D.faults (HasDamaged D.tells L.tells D.history L.lines) (closes desk.old.opening.view.bound.now) desk.old desk.new }
    ensures good { KeepsGood L.lines (D.tells × L.tells) desk.old desk.new }
    ensures tidied { OnOk result (IsTidied (opening_in L.lines) desk.old desk.new) }
    ensures stopped { OnErr result (is_stopped desk.new.core.front.stop ≡ true) }
{
    if desk.is_tidy() {
        return Ok(());
    }
    desk.sync()
}

/// Removes the files that may go.
fn drop_all<'a, D: Disk, L: Log>(desk: &mut Desk<'a, D, L>) -> Result<(), Cause>
    requires running { desk.old.core.front.stop ≡ None }
    requires rest { IsAtRest desk.old.core }
    ensures kept { KeepsUp D.faults (HasDamaged D.tells L.tells D.history L.lines) (closes desk.old.opening.view.bound.now) desk.old desk.new }
    ensures good { KeepsGood L.lines (D.tells × L.tells) desk.old desk.new }
    ensures cleared { OnOk result (IsCleared (opening_in L.lines) (keeping_in (setting_of L.lines desk.old.opening)) desk.old desk.new) }
    ensures stopped { OnErr result (is_stopped desk.new.core.front.stop ≡ true) }
{
    while desk.drop_old()? {}
    Ok(())
}

/// Makes the snapshots that are due, and settles their names; then removes the files that may go, and settles names.
fn keep_up<'a, D: Disk, L: Log, G: Gate>(
    alloc: Global,
    gate: &G,
    desk: &mut Desk<'a, D, L>,
) -> Result<(), Cause>
    requires rest { IsAtRest desk.old.core }
    requires between { (ready_of desk.old.scope desk.old.core ≡ ready.Plan) ⊎ (ready_of desk.old.scope desk.old.core ≡ ready.Over) }
    ensures kept { KeepsUp D.faults (HasDamaged D.tells L.tells D.history L.lines) (closes desk.old.opening.view.bound.now) desk.old desk.new }
    ensures good { KeepsGood L.lines (D.tells × L.tells) desk.old desk.new }
    ensures done { OnOk result (IsUpkept (keeping_in (setting_of L.lines desk.old.opening)) desk.new.scope.partitions desk.new.core (shelf_of (opening_in L.lines) desk.new)) }
    ensures running { OnOk result (is_stopped desk.new.core.front.stop ≡ false) }
    ensures stopped { OnErr result (is_stopped desk.new.core.front.stop ≡ true) }
{
    desk.is_legal();
    make_due(alloc, gate, desk)?;
    tidy(desk)?;
    drop_all(desk)?;
    tidy(desk)
}

/// Upkeep after an acknowledged epoch, where another is to be planned.
pub(crate) fn keep_between<'a, D: Disk, L: Log, G: Gate>(
    alloc: Global,
    gate: &G,
    desk: &mut Desk<'a, D, L>,
)
    requires rest { IsAtRest desk.old.core }
    ensures driven { IsDriven D.faults (HasDamaged D.tells L.tells D.history L.lines) (closes desk.old.opening.view.bound.now) desk.old desk.new }
    ensures good { KeepsGood L.lines (D.tells × L.tells) desk.old desk.new }
    ensures left { left desk.old.scope desk.new.core ≤ left desk.old.scope desk.old.core }
{
    if is_plan(desk.ready()) {
        let _ = keep_up(alloc, gate, desk);
    }
}

/// Upkeep at the end of a round.
pub(crate) fn finish<'a, D: Disk, L: Log, G: Gate>(
    alloc: Global,
    gate: &G,
    desk: &mut Desk<'a, D, L>,
)
    requires rest { IsAtRest desk.old.core }
    requires end { (ready_of desk.old.scope desk.old.core ≡ ready.Over) ⊎ (ready_of desk.old.scope desk.old.core ≡ ready.Stopped) }
    ensures driven { IsDriven D.faults (HasDamaged D.tells L.tells D.history L.lines) (closes desk.old.opening.view.bound.now) desk.old desk.new }
    ensures good { KeepsGood L.lines (D.tells × L.tells) desk.old desk.new }
    ensures end { IsEnded (opening_in L.lines) (keeping_in (setting_of L.lines desk.old.opening)) desk.new }
{
    if is_over(desk.ready()) {
        let _ = keep_up(alloc, gate, desk);
    }
}
