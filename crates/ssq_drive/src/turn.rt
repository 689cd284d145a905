//! One turn of a round: what the desk has ready.
//!
//! The Stop that a call answers is the desk's from then on, and the next turn sees it there.

ghost use Rattle.std.specs.Prelude.{◌≡◌, ◌⊎◌, true, false};
ghost use Rattle.ssq_shape.specs.Late.{closes};
ghost use Rattle.ssq_board.specs.declared.front.Ready.TheVariants as ready;
ghost use Rattle.ssq_board.specs.Core.{ready_of};
ghost use Rattle.ssq_board.specs.Rounds.{HasCap, IsAtRest};
ghost use Rattle.ssq_desk.specs.Tasks.{id_of};
ghost use Rattle.ssq_drive.specs.Driven.{IsTurn};
ghost use Rattle.ssq_drive.specs.Good.{KeepsGood};

use ssq_board::Ready;
use ssq_desk::{Desk, Task};
use ssq_feed::feed;
use ssq_outside::{Disk, Gate, Kind, Log, Stage, TaskId};
use ssq_task::{gather, reduce};
use std::alloc::Global;

/// Plans the next epoch.
fn plan<'a, D: Disk, L: Log>(alloc: Global, desk: &mut Desk<'a, D, L>)
    requires cap { HasCap desk.old.scope.cap }
    requires rest { IsAtRest desk.old.core }
    requires next { ready_of desk.old.scope desk.old.core ≡ ready.Plan }
    ensures turn { IsTurn D.faults (closes desk.old.opening.view.bound.now) desk.old desk.new }
    ensures good { KeepsGood L.lines (D.tells × L.tells) desk.old desk.new }
{
    desk.is_in_order();
    desk.is_numbered();
    let _ = desk.plan(alloc);
}

/// Syncs names.
fn sync<'a, D: Disk, L: Log>(desk: &mut Desk<'a, D, L>)
    requires rest { IsAtRest desk.old.core }
    requires next { ready_of desk.old.scope desk.old.core ≡ ready.Sync }
    ensures turn { IsTurn D.faults (closes desk.old.opening.view.bound.now) desk.old desk.new }
    ensures good { KeepsGood L.lines (D.tells × L.tells) desk.old desk.new }
{
    desk.is_in_order();
    let _ = desk.sync();
}

/// Commits the epoch that runs.
fn commit<'a, D: Disk, L: Log>(desk: &mut Desk<'a, D, L>)
    requires rest { IsAtRest desk.old.core }
    requires next { ready_of desk.old.scope desk.old.core ≡ ready.Commit }
    ensures turn { IsTurn D.faults (closes desk.old.opening.view.bound.now) desk.old desk.new }
    ensures good { KeepsGood L.lines (D.tells × L.tells) desk.old desk.new }
{
    desk.is_in_order();
    let _ = desk.commit();
}

/// The task's number.
fn id_of<L: Log, S: Stage>(task: &Task<'_, L, S>) -> TaskId
    ensures { result ≡ id_of task.now }
{
    match task {
        Task::Map(task) => TaskId {
            epoch: task.epoch,
            kind: Kind::Map,
            number: task.number,
        },
        Task::Reduce(task) => TaskId {
            epoch: task.epoch,
            kind: Kind::Reduce,
            number: task.partition,
        },
        Task::Out(task) => TaskId {
            epoch: task.epoch,
            kind: Kind::Out,
            number: 0,
        },
    }
}

/// Does what is next; a task after the gate. Answers whether there was anything.
pub(crate) fn turn<'a, D: Disk, L: Log, G: Gate>(
    alloc: Global,
    gate: &G,
    desk: &mut Desk<'a, D, L>,
) -> bool
    requires cap { HasCap desk.old.scope.cap }
    requires rest { IsAtRest desk.old.core }
    ensures done { result ≡ true → IsTurn D.faults (closes desk.old.opening.view.bound.now) desk.old desk.new }
    ensures good { KeepsGood L.lines (D.tells × L.tells) desk.old desk.new }
    ensures end { result ≡ false → (desk.new ≡ desk.old) × ((ready_of desk.old.scope desk.old.core ≡ ready.Over) ⊎ (ready_of desk.old.scope desk.old.core ≡ ready.Stopped)) }
{
    desk.is_in_order();
    match desk.ready() {
        Ready::Plan => plan(alloc, desk),
        Ready::Task => {
            desk.is_numbered();
            let Some(task) = desk.claim() else {
                unreachable!()
            };
            gate.at(id_of(&task));
            match task {
                Task::Map(task) => {
                    let _ = desk.report_fed(feed(alloc, task));
                }
                Task::Reduce(task) => {
                    let _ = desk.report_reduced(reduce(alloc, task));
                }
                Task::Out(task) => {
                    let _ = desk.publish_out(gather(alloc, task));
                }
            }
        }
        Ready::Sync => sync(desk),
        Ready::Commit => commit(desk),
        Ready::Over => return false,
        Ready::Stopped => return false,
        Ready::Idle => unreachable!(),
    }
    true
}
