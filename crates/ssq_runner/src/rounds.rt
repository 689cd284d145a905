//! What stands between the rounds of a run: each is told when it is over, and the logs are asked for the next.

ghost use Rattle.std.specs.Prelude.{◌≡◌, ◌<◌, ◌≤◌, ◌+◌, ◌++◌, ℕ, [], true, false, get_or, All, None, IfOk, IfErr, OnOk};
ghost use mathlib.Core.Option.{some};
ghost use lib.ListN.{get_elem?};
ghost use Rattle.std.specs.Option.{ForSome};
ghost use Rattle.ssq_time.specs.Time.{IsStampTime};
ghost use Rattle.ssq_logs.specs.Asked.{AreAsked, IsStopped};
ghost use Rattle.ssq_runner.specs.Running.{Given};
ghost use Rattle.ssq_runner.specs.Between.{AreUnderWay, HasGone, IsOver};
ghost use Rattle.ssq_runner.specs.Putting.{OutRises};
ghost use Rattle.ssq_runner.specs.declared.fault.RunFault.TheVariants as fault;
ghost use Rattle.ssq_runner.specs.Told.{done_line};
ghost use Rattle.ssq_runner.specs.Stops.{short_of, planned_ends, IsUnready};

use crate::fault::RunFault;
use crate::line::push_done;
use crate::put::tell_round;
use ssq_board::Cause;
use ssq_desk::NextRound;
use ssq_drive::Went;
use ssq_logs::{LengthFault, count_lines};
use ssq_meaning::epochs_hang_on_their_cuts;
use ssq_open::Opened;
use ssq_outside::{Disk, Log, Output};
use ssq_plans::PartEnd;
use ssq_promise::rounds;
use ssq_step::Closing;
use std::alloc::Global;

/// What a round begins on.
#[derive(Drop)]
pub(crate) struct Ready<D: Disk, L: Log> {
    pub(crate) disk: D,
    pub(crate) logs: Vec<L>,
    pub(crate) opened: Opened,
    /// The index of each store, in order.
    pub(crate) closings: Vec<Closing>,
    /// The lines that were found of each part.
    pub(crate) found: Vec<u64>,
}

/// What is left where a run is over, and why it is.
#[derive(Drop)]
pub(crate) struct Left<D: Disk, L: Log> {
    pub(crate) disk: D,
    pub(crate) logs: Vec<L>,
    pub(crate) end: Result<(), RunFault>,
}

/// The first part that has fewer lines than are planned of it.
fn short_of(ends: &[PartEnd], found: &[u64]) -> Option<Cause>
    ensures { result ≡ short_of ends.now found.now }
{
    let (Some((end, ends)), Some((lines, found))) = (ends.split_first(), found.split_first()) else {
        return None;
    };
    if *lines < end.end {
        return Some(Cause::LogShort {
            stream: end.stream,
            part: end.part,
            logged: end.end,
            found: *lines,
        });
    }
    short_of(ends, found)
}

/// Where the planned epochs end; nothing where none is planned.
fn last_ends(opened: &Opened) -> &[PartEnd]
    ensures { result.now ≡ planned_ends opened.now }
{
    match opened.plans.as_slice().last() {
        Some(plan) => plan.ends.as_slice(),
        None => &[],
    }
}

/// Asks each log for its lines.
pub(crate) fn count_all<L: Log>(alloc: Global, logs: &mut Vec<L>) -> Result<Vec<u64>, LengthFault>
    ensures asked { IfOk result (λ found. AreAsked L.tells L.lines L.available L.answers L.faults logs.old.items logs.new.items found.items) }
    ensures stopped { IfErr result (IsStopped L.tells L.lines L.available L.answers L.faults 0 logs.old.items logs.new.items) }
{
    count_lines(alloc, logs)
}

/// Asks each log for its lines, before a round that is not the first.
fn count_again<L: Log>(
    alloc: Global,
    opened: &Opened,
    logs: &mut Vec<L>,
) -> Result<Vec<u64>, RunFault>
    ensures asked { IfOk result (λ found. AreAsked L.tells L.lines L.available L.answers L.faults logs.old.items logs.new.items found.items) }
    ensures long { IfOk result (λ found. short_of (planned_ends opened.now) found.items ≡ None) }
    ensures unready { IfErr result (IsUnready L.tells L.lines L.available L.answers L.faults opened.now logs.old.items logs.new.items) }
{
    let found = count_all(alloc, logs)?;
    match short_of(last_ends(opened), found.as_slice()) {
        Some(cause) => Err(RunFault::Round(cause)),
        None => Ok(found),
    }
}

/// Says how many epochs there are.
fn tell_done(alloc: Global, text: &mut Vec<u8>, epochs: u32) -> Result<(), RunFault>
    ensures ok { OnOk result (text.new.items ≡ text.old.items ++ done_line epochs) }
    ensures err { IfErr result (λ why. (why ≡ fault.NoMemory) × (text.new.items ≡ text.old.items)) }
{
    push_done(alloc, text, epochs)?;
    Ok(())
}

/// Tells a round that was run, and asks the logs for the next one, where more are to come; else it is left to say how many epochs there are.
pub(crate) fn next_round<D: Disk, L: Log, O: Output>(
    alloc: Global,
    out: &mut O,
    text: &mut Vec<u8>,
    went: Went<D, L>,
    more: bool,
) -> Result<Ready<D, L>, Left<D, L>>
    requires stamps { All (λ told. ForSome told.watermark IsStampTime) went.told.items }
    requires empty { text.old.items ≡ [] }
    ensures ready { (g : Given L) (n : ℕ) → HasGone (D.tells × L.tells) L.lines L.available L.answers L.faults g n (D.history went.disk) (D.faults went.disk) went.logs.items O.tells (O.content out.old) went.told.items went.end →
        IfOk result (λ next. AreUnderWay (D.tells × L.tells) L.lines L.available L.answers L.faults g (n + 1) (D.history next.disk) (D.faults next.disk) next.logs.items O.tells (O.content out.new) next.opened next.closings.items next.found.items) }
    ensures over { (g : Given L) (n : ℕ) → n < g.rounds → (more ≡ true → n + 1 < g.rounds) → (more ≡ false → n + 1 ≡ g.rounds) →
        HasGone (D.tells × L.tells) L.lines L.available L.answers L.faults g n (D.history went.disk) (D.faults went.disk) went.logs.items O.tells (O.content out.old) went.told.items went.end →
        IfErr result (λ left. IsOver (D.tells × L.tells) L.lines L.available L.answers L.faults g (D.history left.disk) (D.faults left.disk) left.logs.items O.tells (O.content out.new) text.new.items left.end) }
    ensures long { IfOk result (λ next. L.tells → (i : ℕ) (own : _) → get_elem? next.logs.items i ≡ some own → get_or next.found.items i 0 ≤ L.available own) }
    ensures empty { OnOk result (text.new.items ≡ []) }
    ensures more { OnOk result (more ≡ true) }
    ensures counted { O.faults out.old ≤ O.faults out.new }
    ensures cause { IfErr result (λ left. OutRises (O.faults out.old) (O.faults out.new) left.end) }
{
    rounds::<D, L>();
    epochs_hang_on_their_cuts();
    let Went {
        disk,
        mut logs,
        told,
        end,
    } = went;
    let NextRound { opened, closings } = match tell_round(alloc, out, text, told.as_slice(), end) {
        Ok(next) => next,
        Err(fault) => {
            return Err(Left {
                disk,
                logs,
                end: Err(fault),
            });
        }
    };
    if !more {
        let end = tell_done(alloc, text, opened.committed);
        return Err(Left { disk, logs, end });
    }
    match count_again(alloc, &opened, &mut logs) {
        Ok(found) => Ok(Ready {
            disk,
            logs,
            opened,
            closings,
            found,
        }),
        Err(fault) => Err(Left {
            disk,
            logs,
            end: Err(fault),
        }),
    }
}
