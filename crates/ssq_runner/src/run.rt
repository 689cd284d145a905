//! How a run begins, from its logs on: their lines, the checkpoint, the indexes.

ghost use Rattle.std.specs.Prelude.{◌≡◌, ◌≤◌, ◌<◌, ◌^◌, ℕ, [], length, get_or, sum, All, IfOk, IfErr};
ghost use mathlib.Core.Option.{some};
ghost use lib.ListN.{get_elem?};
ghost use Rattle.std.specs.Option.{ForSome};
ghost use Rattle.ssq_open.specs.Lens.{CanBeAsked};
ghost use Rattle.ssq_logs.specs.Asked.{AreAsked};
ghost use Rattle.ssq_board.specs.Rounds.{HasCap};
ghost use Rattle.ssq_terms.specs.Setting.{CanRun};
ghost use Rattle.ssq_runner.specs.Between.{AreUnderWay, IsOver};
ghost use Rattle.ssq_runner.specs.Lens.{lens_of};
ghost use Rattle.ssq_runner.specs.Putting.{OutRises};
ghost use Rattle.ssq_runner.specs.Running.{Given, IsOf, IsOpenedOn, IsUnopened, KeepsStanding, LeavesStanding};

use crate::ask::Ask;
use crate::fault::RunFault;
use crate::index::closings_of;
use crate::lens::lens_of;
use crate::rounds::{Left, Ready, count_all};
use ssq_open::{Opened, open};
use ssq_outside::{Disk, Log, Output};
use ssq_promise::{rounds, run as promise};
use ssq_shape::Bound;
use ssq_terms::{job_is_wanted, round_begins_as_found};
use std::alloc::Global;

/// Opens the checkpoint, over logs in which so many lines were found.
fn open_found<D: Disk>(
    alloc: Global,
    disk: &mut D,
    bound: &Bound,
    partitions: Option<u32>,
    counts: &[u32],
    found: &[u64],
) -> Result<Opened, RunFault>
    requires asked { CanBeAsked bound.now partitions (lens_of counts.now found.now) }
    requires each { sum counts.now ≤ length found.now }
    ensures opened { IfOk result (λ opened. IsOpenedOn D.tells D.history bound.now partitions (lens_of counts.now found.now) disk.old disk.new opened) }
    ensures unopened { IfErr result (IsUnopened D.tells D.history D.faults bound.now partitions (lens_of counts.now found.now) disk.old disk.new) }
    ensures images { LeavesStanding D.tells D.history bound.now partitions (lens_of counts.now found.now) disk.old disk.new }
    ensures stay { KeepsStanding D.tells D.history disk.old disk.new }
    ensures counted { D.faults disk.old ≤ D.faults disk.new }
{
    let lens = lens_of(alloc, counts, found)?;
    let opened = open(alloc, disk, bound, partitions, &lens)?;
    Ok(opened)
}

/// Opens the checkpoint, over logs in which so many lines were found, and makes the index of each store. Nothing is written, on the output `O`
/// neither.
fn begin_found<D: Disk, L: Log, O: Output>(
    alloc: Global,
    bound: &Bound,
    ask: Ask,
    disk: D,
    logs: Vec<L>,
    counts: &[u32],
    found: Vec<u64>,
) -> Result<Ready<D, L>, Left<D, L>>
    requires asked { CanBeAsked bound.now ask.partitions (lens_of counts.now found.items) }
    requires runs { CanRun bound.now }
    requires each { length found.items ≡ sum counts.now }
    requires log_each { length logs.items ≡ length found.items }
    requires few { length logs.items ≤ 128 }
    requires small { sum found.items < 2 ^ 64 }
    requires there { L.tells → (i : ℕ) (own : _) → get_elem? logs.items i ≡ some own → get_or found.items i 0 ≤ L.available own }
    requires cap { HasCap ask.cap }
    ensures begun { (g : Given L) → IsOf bound.now ask counts.now g → g.start ≡ D.history disk → g.disk_faults ≡ D.faults disk → AreAsked L.tells L.lines L.available L.answers L.faults g.logs logs.items found.items →
        IfOk result (λ next. AreUnderWay (D.tells × L.tells) L.lines L.available L.answers L.faults g 0 (D.history next.disk) (D.faults next.disk) next.logs.items O.tells g.written next.opened next.closings.items next.found.items) }
    ensures over { (g : Given L) → IsOf bound.now ask counts.now g → g.start ≡ D.history disk → g.disk_faults ≡ D.faults disk → AreAsked L.tells L.lines L.available L.answers L.faults g.logs logs.items found.items →
        IfErr result (λ left. IsOver (D.tells × L.tells) L.lines L.available L.answers L.faults g (D.history left.disk) (D.faults left.disk) left.logs.items O.tells g.written [] left.end) }
    ensures long { IfOk result (λ next. L.tells → (i : ℕ) (own : _) → get_elem? next.logs.items i ≡ some own → get_or next.found.items i 0 ≤ L.available own) }
    ensures cause { IfErr result (λ left. (faults : ℕ) → OutRises faults faults left.end) }
{
    job_is_wanted();
    round_begins_as_found();
    rounds::<D, L>();
    promise::<D, L>();
    let mut disk = disk;
    let opened = match open_found(
        alloc,
        &mut disk,
        bound,
        ask.partitions,
        counts,
        found.as_slice(),
    ) {
        Ok(opened) => opened,
        Err(fault) => {
            return Err(Left {
                disk,
                logs,
                end: Err(fault),
            });
        }
    };
    match closings_of(alloc, bound, opened.stores.as_slice()) {
        Ok(closings) => Ok(Ready {
            disk,
            logs,
            opened,
            closings,
            found,
        }),
        Err(_) => Err(Left {
            disk,
            logs,
            end: Err(RunFault::NoMemory),
        }),
    }
}

/// Counts the lines of the logs, of which there is one for each of so many parts of each stream, opens the checkpoint, and makes the index of each
/// store: what the first round begins on. Nothing is written, on the output `O` neither.
pub(crate) fn begin<D: Disk, L: Log, O: Output>(
    alloc: Global,
    bound: &Bound,
    ask: Ask,
    disk: D,
    logs: Vec<L>,
    counts: &[u32],
) -> Result<Ready<D, L>, Left<D, L>>
    requires partitions { ForSome ask.partitions (λ count. (1 ≤ count) × (count ≤ 64)) }
    requires counts { All (λ count. count ≤ 64) counts.now }
    requires streams { length counts.now ≡ length bound.now.streams }
    requires few_streams { length bound.now.streams ≤ 2 }
    requires runs { CanRun bound.now }
    requires log_each { length logs.items ≡ sum counts.now }
    requires cap { HasCap ask.cap }
    ensures begun { (g : Given L) → IsOf bound.now ask counts.now g → g.start ≡ D.history disk → g.disk_faults ≡ D.faults disk → g.logs ≡ logs.items →
        IfOk result (λ next. AreUnderWay (D.tells × L.tells) L.lines L.available L.answers L.faults g 0 (D.history next.disk) (D.faults next.disk) next.logs.items O.tells g.written next.opened next.closings.items next.found.items) }
    ensures over { (g : Given L) → IsOf bound.now ask counts.now g → g.start ≡ D.history disk → g.disk_faults ≡ D.faults disk → g.logs ≡ logs.items →
        IfErr result (λ left. IsOver (D.tells × L.tells) L.lines L.available L.answers L.faults g (D.history left.disk) (D.faults left.disk) left.logs.items O.tells g.written [] left.end) }
    ensures long { IfOk result (λ next. L.tells → (i : ℕ) (own : _) → get_elem? next.logs.items i ≡ some own → get_or next.found.items i 0 ≤ L.available own) }
    ensures cause { IfErr result (λ left. (faults : ℕ) → OutRises faults faults left.end) }
{
    let mut logs = logs;
    match count_all(alloc, &mut logs) {
        Ok(found) => begin_found::<D, L, O>(alloc, bound, ask, disk, logs, counts, found),
        Err(fault) => Err(Left {
            disk,
            logs,
            end: Err(RunFault::Lines(fault)),
        }),
    }
}
