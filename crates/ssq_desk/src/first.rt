//! What a desk holds where its round begins, made before it takes the disk.

ghost use Rattle.std.specs.Prelude.{◌≡◌, ℕ, ◌≤◌, ◌<◌, ◌^◌, ◌&&◌, not, nat_lt, [], length, vec_capacity, All, IfOk};
ghost use Rattle.ssq_plans.specs.Records.{HasLineTime};
ghost use Rattle.ssq_open.specs.Epochs.{cut_of};
ghost use Rattle.ssq_water.specs.Water.{HasDelays, seen_at};
ghost use Rattle.ssq_desk.specs.Round.{is_due, mark_of};
ghost use Rattle.ssq_task.specs.Committing.{told};
ghost use Rattle.ssq_desk.specs.First.{part_logs_of, held_of, HasRooms, IsBegunOn, IsMadeOf};

use crate::desk::PartLog;
use crate::due::is_due;
use crate::room::{Room, make_room};
use crate::told::Told;
use ssq_ledger::Start;
use ssq_open::{Opened, begins};
use ssq_outside::Log;
use ssq_plans::{PartEnd, Plan, SeenBy};
use ssq_shape::Bound;
use ssq_step::Closing;
use ssq_store::Store;
use ssq_task::{Held, seen_from};
use ssq_value::Sequence;
use ssq_water::Seen;
use std::alloc::{AllocError, Global};

/// Room for what a desk comes to hold, beside what the tasks of an epoch take.
#[derive(Drop)]
pub(crate) struct Rooms<L: Log> {
    /// For the parts with their logs.
    pub(crate) part_logs: Vec<PartLog<L>>,
    /// To tell of one epoch.
    pub(crate) told: Vec<Told>,
    /// For the greatest times of the watermarked streams.
    pub(crate) lines: Vec<SeenBy>,
    /// For the logs.
    pub(crate) logs: Vec<L>,
    /// For what partitions keep.
    pub(crate) held: Vec<Option<Held>>,
    /// For the stores in it.
    pub(crate) stores: Vec<Store>,
    /// For their indexes.
    pub(crate) closings: Vec<Closing>,
}

/// Where a round begins, and where its parts do.
#[derive(Drop)]
pub(crate) struct Begun {
    pub(crate) start: Start,
    /// The parts, where they begin.
    pub(crate) parts: Vec<PartEnd>,
    /// Where the lines of the committed epochs end.
    pub(crate) ends: Vec<PartEnd>,
}

/// All that a desk needs where its round begins.
#[derive(Drop)]
pub(crate) struct Made<L: Log, S> {
    pub(crate) begun: Begun,
    /// The greatest times over the committed epochs.
    pub(crate) seen: Seen,
    /// Room for the tasks of an epoch.
    pub(crate) room: Room<S>,
    pub(crate) rooms: Rooms<L>,
}

/// Where the lines of the first epochs end, of parts that begin there.
fn ends_at<'p>(
    first: &'p Sequence<PartEnd>,
    plans: &'p [Plan],
    epochs: usize,
) -> &'p Sequence<PartEnd>
    requires { epochs ≤ length plans.now }
    ensures { result.now ≡ cut_of first.now plans.now epochs }
{
    match epochs {
        0 => first,
        _ => &plans[epochs - 1].ends,
    }
}

/// The watermark of the last of the first plans, none where there is none.
fn mark_at(plans: &[Plan], epochs: usize) -> Option<i64>
    requires { epochs ≤ length plans.now }
    ensures { result ≡ mark_of plans.now epochs }
{
    match epochs {
        0 => None,
        _ => plans[epochs - 1].watermark,
    }
}

/// Whether an epoch without lines is due: so many are committed, which are all that are planned, and there are these greatest times.
fn is_due_on(bound: &Bound, seen: &Seen, plans: &[Plan], committed: usize) -> bool
    requires before { committed ≤ length plans.now }
    requires streams { length seen.now ≡ length bound.now.streams }
    requires delays { HasDelays bound.now }
    ensures { result ≡ (not (nat_lt committed (length plans.now)) && is_due bound.now (seen_at seen.now) (mark_of plans.now committed)) }
{
    committed == plans.len() && is_due(bound, seen, mark_at(plans, committed))
}

/// Where the round begins, with these greatest times.
fn begin_parts(
    alloc: Global,
    bound: &Bound,
    opened: &Opened,
    seen: &Seen,
) -> Result<Begun, AllocError>
    requires few { length opened.now.meta.parts ≤ 2 ^ 32 }
    requires before { opened.now.committed ≤ length opened.now.plans }
    requires streams { length seen.now ≡ length bound.now.streams }
    requires times { (stream : ℕ) → seen_at seen.now stream ≡ told opened.now.seen stream }
    requires delays { HasDelays bound.now }
    ensures { IfOk result (IsBegunOn bound.now opened.now) }
{
    let parts = begins(alloc, opened.meta.parts.as_slice())?;
    let plans = opened.plans.as_slice();
    let committed = opened.committed as usize;
    let from = ends_at(&parts, plans, committed);
    let ends = from.clone()?;
    let from = from.clone()?;
    let to = ends_at(&parts, plans, plans.len()).clone()?;
    let due = is_due_on(bound, seen, plans, committed);
    let start = Start {
        committed: opened.committed,
        is_planned: committed < plans.len(),
        from: from.into_vec(),
        to: to.into_vec(),
        due,
    };
    Ok(Begun {
        start,
        parts: parts.into_vec(),
        ends: ends.into_vec(),
    })
}

/// Makes room for so many logs, streams and stores.
fn make_rooms<L: Log>(
    alloc: Global,
    logs: usize,
    streams: usize,
    stores: usize,
) -> Result<Rooms<L>, AllocError>
    ensures { IfOk result (HasRooms logs streams stores) }
{
    let part_logs = Vec::with_capacity(alloc, logs)?;
    let told = Vec::with_capacity(alloc, 1)?;
    let lines = Vec::with_capacity(alloc, streams)?;
    let logs = Vec::with_capacity(alloc, logs)?;
    let held = Vec::with_capacity(alloc, stores)?;
    let closings = Vec::with_capacity(alloc, stores)?;
    let stores = Vec::with_capacity(alloc, stores)?;
    Ok(Rooms {
        part_logs,
        told,
        lines,
        logs,
        held,
        stores,
        closings,
    })
}

/// Makes it, for so many logs.
pub(crate) fn make_first<L: Log, S: Drop>(
    alloc: Global,
    bound: &Bound,
    partitions: u32,
    opened: &Opened,
    logs: usize,
) -> Result<Made<L, S>, AllocError>
    requires few { length opened.now.meta.parts ≤ 2 ^ 32 }
    requires before { opened.now.committed ≤ length opened.now.plans }
    requires streams { All (λ line. line.stream < length bound.now.streams) opened.now.seen }
    requires years { All HasLineTime opened.now.seen }
    requires delays { HasDelays bound.now }
    ensures { IfOk result (IsMadeOf bound.now partitions opened.now logs) }
{
    let seen = seen_from(alloc, bound, opened.seen.as_slice())?;
    let begun = begin_parts(alloc, bound, opened, &seen)?;
    let room = make_room(alloc, partitions, logs, &seen)?;
    let rooms = make_rooms(alloc, logs, bound.streams.len(), opened.stores.len())?;
    Ok(Made {
        begun,
        seen,
        room,
        rooms,
    })
}

/// What partitions keep, in the room that was made for it: each store with its index.
pub(crate) fn with_closings(
    room: Vec<Option<Held>>,
    stores: Vec<Store>,
    closings: Vec<Closing>,
) -> Vec<Option<Held>>
    requires none { room.items ≡ [] }
    requires fits { length stores.items ≤ vec_capacity room }
    requires each { length closings.items ≡ length stores.items }
    ensures { result.items ≡ held_of stores.items closings.items }
{
    let mut held = room;
    let mut closings = closings.into_iter();
    for store in stores {
        let Some(closing) = closings.next() else {
            return held;
        };
        held.push_reserved(Some(Held { store, closing }));
    }
    held
}

/// The parts with their logs, in the room that was made for them.
pub(crate) fn with_logs<L: Log>(
    room: Vec<PartLog<L>>,
    parts: &[PartEnd],
    ends: &[PartEnd],
    logs: Vec<L>,
) -> Vec<PartLog<L>>
    requires none { room.items ≡ [] }
    requires fits { length logs.items ≤ vec_capacity room }
    requires parts { length parts.now ≡ length logs.items }
    requires ends { length ends.now ≡ length logs.items }
    ensures { result.items ≡ part_logs_of parts.now ends.now logs.items }
{
    let mut part_logs = room;
    for log in logs {
        let at = part_logs.as_slice().len();
        part_logs.push_reserved(PartLog {
            stream: parts[at].stream,
            part: parts[at].part,
            from: ends[at].end,
            log: Some(log),
            fed: None,
        });
    }
    part_logs
}
