//! How a desk is made.

ghost use Rattle.std.specs.Prelude.{◌≡◌, ◌≤◌, ℕ, get_or, None, IfOk, IfErr};
ghost use mathlib.Core.Option.{some};
ghost use lib.ListN.{get_elem?};
ghost use Rattle.ssq_desk.specs.Round.{IsRound, setting_of};
ghost use Rattle.ssq_desk.specs.First.{AreIndexes, BeginsAs, BeginsWork, first_shown};

use crate::desk::{Desk, Kept, Load, OutWork, Share};
use crate::first::{Begun, Made, Rooms, make_first, with_closings, with_logs};
use crate::room::{Room, begin_files};
use crate::round::Round;
use ssq_board::Cause;
use ssq_ledger::{Ledger, Opening, Scope};
use ssq_meaning::View;
use ssq_open::Opened;
use ssq_outside::{Disk, Log};
use ssq_step::Closing;
use ssq_task::Held;
use ssq_terms::tasks_have_terms;
use ssq_value::Row;
use ssq_water::Seen;
use std::alloc::Global;
use std::snapshot::Snapshot;

impl<'a, D: Disk, L: Log> Desk<'a, D, L> {
    /// The desk of a round that begins on what was opened: with one log for each part, in order, the index of each store in order, the lines that
    /// were found in the logs, and how many lines of a part an epoch may take.
    ///
    /// Where an epoch was opened as planned, its files aside are begun; where that fails, the desk is stopped. Disk and logs come back
    /// where memory ran out before that.
    pub fn new(
        alloc: Global,
        view: View<'a>,
        disk: D,
        logs: Vec<L>,
        opened: Opened,
        closings: Vec<Closing>,
        available: Vec<u64>,
        cap: Option<u64>,
    ) -> Result<Desk<'a, D, L>, (D, Vec<L>)>
        requires round { IsRound (setting_of L.lines (record { view = view; opened = opened; logs = logs })) opened (record { partitions = view.partitions; available = available.items; cap = cap }) }
        requires long { L.tells → (i : ℕ) (own : _) → get_elem? logs.items i ≡ some own → get_or available.items i 0 ≤ L.available own }
        requires indexes { AreIndexes (Unit {0}) view.bound.now opened.stores closings.items }
        ensures made { IfOk result (λ desk. BeginsAs (D.faults disk) (D.faults desk.disk) (first_shown L.lines (record { view = view.entry; opened = opened; logs = logs }) disk (record { partitions = view.entry.partitions; available = available.items; cap = cap })) desk) }
        ensures same { D.tells → IfOk result (λ desk. D.history desk.disk ≡ D.history disk) }
        ensures counted { IfOk result (λ desk. D.faults disk ≤ D.faults desk.disk) }
        ensures back { IfErr result (λ back. (back.0 ≡ disk) × (back.1 ≡ logs)) }
    {
        let Ok(made) = make_first(
            alloc,
            view.bound,
            view.partitions,
            &opened,
            logs.as_slice().len(),
        ) else {
            return Err((disk, logs));
        };
        let round = Round { view, opened, logs };
        let opening = Snapshot::of(&round);
        let Round { opened, logs, .. } = round;
        let scope = Scope {
            partitions: view.partitions,
            available,
            cap,
        };
        let Made {
            begun,
            seen,
            room,
            rooms,
        } = made;
        let Begun { start, parts, ends } = begun;
        let is_planned = start.is_planned;
        let Opened {
            meta,
            plans,
            stores,
            names,
            ..
        } = opened;
        tasks_have_terms();
        let mut ledger = match Ledger::new(alloc, opening, disk, scope, start, names.into_vec()) {
            Ok(ledger) => ledger,
            Err(disk) => {
                drop(rooms);
                drop(room);
                return Err((disk, logs));
            }
        };
        let Rooms {
            part_logs,
            told,
            lines,
            logs: room_for_logs,
            held,
            stores: room_for_stores,
            closings: room_for_closings,
        } = rooms;
        let part_logs = with_logs(part_logs, parts.as_slice(), ends.as_slice(), logs);
        let Room {
            mut shares,
            rows,
            seen: before,
            ..
        } = room;
        let held = with_closings(held, stores.into_vec(), closings);
        let out = begin_out(
            alloc,
            &mut ledger,
            is_planned,
            &mut shares,
            held.as_slice(),
            rows,
            before,
        );
        Ok(Desk {
            alloc,
            ledger,
            load: Load {
                view,
                plans: plans.into_vec(),
                part_logs,
                shares,
                held,
                out,
                seen,
                pending: None,
                told,
                kept: Kept {
                    meta,
                    lines,
                    logs: room_for_logs,
                    stores: room_for_stores,
                    closings: room_for_closings,
                },
            },
        })
    }
}

/// Begins the files of the tasks of an epoch that was opened as planned. Where that fails, the ledger is stopped.
fn begin_out<D: Disk, O: Opening>(
    alloc: Global,
    ledger: &mut Ledger<D, O>,
    is_planned: bool,
    shares: &mut [Share<D::Stage>],
    held: &[Option<Held>],
    rows: Vec<Vec<Row>>,
    seen: Seen,
) -> Option<OutWork<D::Stage>>
    requires { ledger.old.core.front.stop ≡ None }
    ensures begun { BeginsWork D.tells D.Stage.written is_planned rows seen held.now shares.old shares.new (D.faults ledger.old.disk) (D.faults ledger.new.disk) ledger.old ledger.new result }
    ensures same { D.tells → D.history ledger.new.disk ≡ D.history ledger.old.disk }
    ensures counted { D.faults ledger.old.disk ≤ D.faults ledger.new.disk }
{
    if !is_planned {
        return None;
    }
    match begin_files(alloc, ledger, shares, held) {
        Ok(stages) => Some(OutWork { rows, seen, stages }),
        Err(error) => {
            ledger.stop(Cause::from(error));
            None
        }
    }
}
