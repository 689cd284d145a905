//! A whole round.

ghost use Rattle.std.specs.Prelude.{◌≡◌, ◌≤◌, ℕ, length, get_or, Some, None, IfOk, IfErr, IsSome};
ghost use Rattle.std.specs.List.{sum_by};
ghost use mathlib.Core.Option.{some};
ghost use lib.ListN.{get_elem?};
ghost use Rattle.ssq_drive.specs.Rounds.{CanBegin, AreReturned, HaveIndexes, IsRound, setting_for};

use crate::keep::{finish, keep_between};
use crate::turn::turn;
use ssq_board::Cause;
use ssq_desk::{Closed, Desk, NextRound, Told};
use ssq_meaning::View;
use ssq_open::Opened;
use ssq_outside::{Disk, Gate, Log};
use ssq_promise::rounds;
use ssq_shape::Bound;
use ssq_step::Closing;
use ssq_terms::{job_is_wanted, round_begins_as_found, tasks_have_terms, times_are_of_lines};
use ssq_value::Row;
use std::alloc::Global;

/// Why a round stopped.
#[derive(Drop)]
pub struct Stopped {
    pub cause: Cause,
    /// The key that overflows, where one does.
    pub key: Option<Row>,
}

/// What a round leaves.
#[derive(Drop)]
pub struct Went<D: Disk, L: Log> {
    pub disk: D,
    /// One log for each part, in order.
    pub logs: Vec<L>,
    /// The epochs that were acknowledged, in order.
    pub told: Vec<Told>,
    /// What the next round begins on, or why this one stopped.
    pub end: Result<NextRound, Stopped>,
}

/// What the next round begins on, or why this one stopped.
fn end_of(
    next: Option<NextRound>,
    stop: Option<Cause>,
    key: Option<Row>,
) -> Result<NextRound, Stopped>
    requires { next ≡ None → IsSome stop }
    ensures next { IfOk result (λ own. next ≡ Some own) }
    ensures stop { IfErr result (λ why. (next ≡ None) × (stop ≡ Some why.cause) × (why.key ≡ key)) }
{
    match next {
        Some(next) => Ok(next),
        None => match stop {
            Some(cause) => Err(Stopped { cause, key }),
            None => unreachable!(),
        },
    }
}

/// Runs a round on what was opened: with one log for each part, in order, the index of each store, in order, the lines that were found in the
/// logs, and how many lines of a part an epoch may take, if there is a cap. Each task passes the gate as it begins.
///
/// It ends where all that was found is covered, committed and told, and no epoch without lines is due, and then gives what the next round
/// begins on; or it stops, for a bad line, a key that overflows or a fault of the outside.
pub fn run_round<D: Disk, L: Log, G: Gate>(
    alloc: Global,
    gate: &G,
    bound: &Bound,
    disk: D,
    logs: Vec<L>,
    opened: Opened,
    closings: Vec<Closing>,
    found: Vec<u64>,
    cap: Option<u64>,
) -> Went<D, L>
    requires can { CanBegin bound.now (length logs.items) opened (record { partitions = opened.meta.partitions; available = found.items; cap = cap }) }
    requires long { L.tells → (i : ℕ) (own : _) → get_elem? logs.items i ≡ some own → get_or found.items i 0 ≤ L.available own }
    requires indexes { HaveIndexes bound.now opened.stores closings.items }
    ensures round { IsRound (D.tells × L.tells) (setting_for L.lines bound.now opened logs.items) (length logs.items) (record { partitions = opened.meta.partitions; available = found.items; cap = cap })
        opened (D.history disk) (D.history result.disk) (D.faults disk) (D.faults result.disk) (sum_by L.faults result.logs.items) result.told.items result.end }
    ensures logs { AreReturned L.tells L.lines L.available L.answers L.faults logs.items result.logs.items }
    ensures counted { D.faults disk ≤ D.faults result.disk }
{
    rounds::<D, L>();
    job_is_wanted();
    tasks_have_terms();
    round_begins_as_found();
    times_are_of_lines();
    let view = View {
        bound,
        partitions: opened.meta.partitions,
    };
    let mut desk = match Desk::new(alloc, view, disk, logs, opened, closings, found, cap) {
        Ok(desk) => desk,
        Err((disk, logs)) => {
            return Went {
                disk,
                logs,
                told: Vec::new(alloc),
                end: Err(Stopped {
                    cause: Cause::NoMemory,
                    key: None,
                }),
            };
        }
    };
    while turn(alloc, gate, &mut desk) {
        keep_between(alloc, gate, &mut desk);
    }
    finish(alloc, gate, &mut desk);
    desk.is_legal();
    desk.is_in_order();
    let Closed {
        disk,
        logs,
        told,
        stop,
        key,
        next,
        ..
    } = desk.closed();
    Went {
        disk,
        logs,
        told,
        end: end_of(next, stop, key),
    }
}
