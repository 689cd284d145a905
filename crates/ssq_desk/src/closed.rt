//! How a desk ends.

ghost use Rattle.std.specs.Prelude.{◌≡◌, ◌≢◌, ◌⊎◌, ◌<◌, ◌≤◌, ◌-◌, ◌^◌, ◌||◌, nat_lt, true, false, [], ◌∷◌, ◌++◌, length, map, take, vec_capacity, Some, None, All, IsSome, MatchOption};
ghost use Rattle.std.specs.List.{list_any, AllZip, sum_by};
ghost use Rattle.ssq_outside.specs.declared.gate.Kind.{Kind as KindOf};
ghost use Rattle.ssq_plans.specs.Records.{HasLineTime};
ghost use Rattle.ssq_water.specs.Water.{AreLineTimes};
ghost use Rattle.ssq_feed.specs.Causes.{LogWent};
ghost use Rattle.ssq_task.specs.Committing.{lines_of};
ghost use Rattle.ssq_board.specs.declared.front.Cause.{Cause as CauseOf};
ghost use Rattle.ssq_board.specs.declared.front.Cause.TheVariants as cause;
ghost use Rattle.ssq_board.specs.declared.front.Ready.TheVariants as ready;
ghost use Rattle.ssq_board.specs.Core.{ready_of, tasks_of};
ghost use Rattle.ssq_board.specs.Rounds.{is_away};
ghost use Rattle.ssq_board.specs.Shelf.{acknowledged_in};
ghost use Rattle.ssq_ledger.specs.Shown.{cuts_of, shelf_of};
ghost use Rattle.ssq_desk.specs.Round.{Owns, setting_of};
ghost use Rattle.ssq_desk.specs.Contents.{IsStopOf};
ghost use Rattle.ssq_desk.specs.Whole.{opening_in};
ghost use Rattle.ssq_desk.specs.First.{AreIndexes};
ghost use Rattle.ssq_desk.specs.Closing.{AreTold, IsNext, closings_in, stores_in};

use crate::desk::{Desk, Kept, Load, PartLog};
use crate::keys::take_key;
use crate::make::drop_files;
use crate::told::Told;
use ssq_board::{Cause, Entry, Front, Ready};
use ssq_open::Opened;
use ssq_outside::{Disk, Log, Name};
use ssq_plans::{Plan, SeenBy};
use ssq_shape::Bound;
use ssq_step::Closing;
use ssq_store::Store;
use ssq_task::Held;
use ssq_value::{Row, Sequence};
use ssq_water::Seen;

/// What the next round begins on.
#[derive(Drop)]
pub struct NextRound {
    pub opened: Opened,
    /// The index of each store, in order.
    pub closings: Vec<Closing>,
}

/// What a desk gives back when it ends.
#[derive(Drop)]
pub struct Closed<D: Disk, L: Log> {
    pub disk: D,
    /// One log for each part, in order.
    pub logs: Vec<L>,
    /// What was done.
    pub history: Vec<Entry>,
    /// What the acknowledged epochs were, in order.
    pub told: Vec<Told>,
    /// Why the desk was stopped, where it was.
    pub stop: Option<Cause>,
    /// The key for which it was stopped: none where it was not stopped for one.
    pub key: Option<Row>,
    /// Where all that was found is covered, committed and settled, and all files of the state are.
    pub next: Option<NextRound>,
}

/// Takes the log of a part over.
fn take_over<L: Log>(logs: &mut Vec<L>, part_log: PartLog<L>)
    requires room { length logs.old.items < vec_capacity logs.old }
    requires there { IsSome part_log.log }
    ensures taken { (own : _) × (part_log.log ≡ Some own) × (logs.new.items ≡ logs.old.items ++ own ∷ []) }
    ensures capacity { vec_capacity logs.new ≡ vec_capacity logs.old }
{
    let PartLog { log, .. } = part_log;
    if let Some(log) = log {
        logs.push_reserved(log);
    }
}

/// The logs of the parts, in the room that was made for them.
fn logs_of<L: Log>(room: Vec<L>, part_logs: Vec<PartLog<L>>) -> Vec<L>
    requires none { room.items ≡ [] }
    requires fits { length part_logs.items ≤ vec_capacity room }
    requires there { All (λ part_log. IsSome part_log.log) part_logs.items }
    ensures { map (λ log. Some log) result.items ≡ map (λ part_log. part_log.log) part_logs.items }
{
    let mut logs = room;
    for part_log in part_logs {
        take_over(&mut logs, part_log);
    }
    logs
}

/// Takes the store and the index of what a partition keeps over.
fn take_apart(stores: &mut Vec<Store>, closings: &mut Vec<Closing>, held: Option<Held>)
    requires stores { length stores.old.items < vec_capacity stores.old }
    requires closings { length closings.old.items < vec_capacity closings.old }
    ensures stores { stores.new.items ≡ stores.old.items ++ stores_in (held ∷ []) }
    ensures closings { closings.new.items ≡ closings.old.items ++ closings_in (held ∷ []) }
    ensures capacity { (vec_capacity stores.new ≡ vec_capacity stores.old) × (vec_capacity closings.new ≡ vec_capacity closings.old) }
{
    if let Some(held) = held {
        let Held { store, closing } = held;
        stores.push_reserved(store);
        closings.push_reserved(closing);
    }
}

/// The stores of what partitions keep, and their indexes, in the room that was made for them.
fn stores_of(
    stores: Vec<Store>,
    closings: Vec<Closing>,
    held: Vec<Option<Held>>,
) -> (Vec<Store>, Vec<Closing>)
    requires none { (stores.items ≡ []) × (closings.items ≡ []) }
    requires fits { (length held.items ≤ vec_capacity stores) × (length held.items ≤ vec_capacity closings) }
    ensures stores { result.0.items ≡ stores_in held.items }
    ensures closings { result.1.items ≡ closings_in held.items }
{
    let mut stores = stores;
    let mut closings = closings;
    for own in held {
        take_apart(&mut stores, &mut closings, own);
    }
    (stores, closings)
}

/// The lines of a commit with these greatest times, in the room that was made for them.
fn lines_in(room: Vec<SeenBy>, bound: &Bound, times: &[Option<i64>]) -> Sequence<SeenBy>
    requires none { room.items ≡ [] }
    requires fits { length bound.now.streams ≤ vec_capacity room }
    requires each { length times.now ≡ length bound.now.streams }
    requires few { length bound.now.streams ≤ 2 ^ 32 }
    requires years { AreLineTimes times.now }
    ensures lines { result ≡ lines_of bound.now times.now }
    ensures years { All HasLineTime result }
{
    let mut lines = room;
    for (at, stream) in bound.streams.as_slice().iter().enumerate() {
        if stream.delay.is_some() {
            lines.push_reserved(SeenBy {
                stream: at as u32,
                time: times[at],
            });
        }
    }
    Sequence::from_vec(lines)
}

/// Whether the last committed epoch is acknowledged: names are settled after its commit.
fn is_told(front: Front) -> bool
    ensures { result ≡ (nat_lt front.committed front.planned || front.settled) }
{
    front.committed < front.planned || front.settled
}

/// What was told of the acknowledged epochs.
fn acknowledged(told: Vec<Told>, all: bool) -> Vec<Told>
    ensures all { all ≡ true → result.items ≡ told.items }
    ensures rest { all ≡ false → result.items ≡ take (length told.items - 1) told.items }
{
    let mut told = told;
    if !all {
        told.pop();
    }
    told
}

/// What the next round begins on, and the room for logs.
fn next_of<L: Log>(
    kept: Kept<L>,
    held: Vec<Option<Held>>,
    plans: Vec<Plan>,
    committed: u32,
    bound: &Bound,
    seen: &Seen,
    names: Vec<Name>,
) -> (NextRound, Vec<L>)
    requires no_stores { (kept.stores.items ≡ []) × (kept.closings.items ≡ []) }
    requires stores { (length held.items ≤ vec_capacity kept.stores) × (length held.items ≤ vec_capacity kept.closings) }
    requires none { kept.lines.items ≡ [] }
    requires fits { length bound.now.streams ≤ vec_capacity kept.lines }
    requires each { length seen.now ≡ length bound.now.streams }
    requires few { length bound.now.streams ≤ 2 ^ 32 }
    ensures next { result.0.opened ≡ record { meta = kept.meta; plans = plans.items; committed = committed; seen = lines_of bound.now seen.now; stores = stores_in held.items; names = names.items } }
    ensures closings { result.0.closings.items ≡ closings_in held.items }
    ensures years { All HasLineTime result.0.opened.seen }
    ensures room { result.1 ≡ kept.logs }
{
    let Kept {
        meta,
        lines,
        logs,
        stores,
        closings,
    } = kept;
    let (stores, closings) = stores_of(stores, closings, held);
    let seen = lines_in(lines, bound, seen.times());
    let opened = Opened {
        meta,
        plans: Sequence::from_vec(plans),
        committed,
        seen,
        stores: Sequence::from_vec(stores),
        names: Sequence::from_vec(names),
    };
    (NextRound { opened, closings }, logs)
}

/// What the next round begins on, where this one is over; and the room for logs.
fn next_if<L: Log>(
    is_over: bool,
    kept: Kept<L>,
    held: Vec<Option<Held>>,
    plans: Vec<Plan>,
    committed: u32,
    bound: &Bound,
    seen: &Seen,
    names: Vec<Name>,
) -> (Option<NextRound>, Vec<L>)
    requires no_stores { (kept.stores.items ≡ []) × (kept.closings.items ≡ []) }
    requires stores { (length held.items ≤ vec_capacity kept.stores) × (length held.items ≤ vec_capacity kept.closings) }
    requires none { kept.lines.items ≡ [] }
    requires fits { length bound.now.streams ≤ vec_capacity kept.lines }
    requires each { is_over ≡ true → length seen.now ≡ length bound.now.streams }
    requires few { length bound.now.streams ≤ 2 ^ 32 }
    ensures next { MatchOption result.0 (is_over ≡ false) (λ next. (is_over ≡ true) × (next.opened ≡ record { meta = kept.meta; plans = plans.items; committed = committed; seen = lines_of bound.now seen.now; stores = stores_in held.items; names = names.items }) × All HasLineTime next.opened.seen × (next.closings.items ≡ closings_in held.items)) }
    ensures room { result.1 ≡ kept.logs }
{
    if !is_over {
        let Kept { logs, .. } = kept;
        return (None, logs);
    }
    let (next, logs) = next_of(kept, held, plans, committed, bound, seen, names);
    (Some(next), logs)
}

/// Whether the round is over, and all files of the state are settled.
fn is_over(next: Ready, is_tidy: bool) -> bool
    ensures over { result ≡ true → (next ≡ ready.Over) × (is_tidy ≡ true) }
    ensures other { result ≡ false → (next ≢ ready.Over) ⊎ (is_tidy ≡ false) }
{
    is_tidy && matches!(next, Ready::Over)
}

impl<'a, D: Disk, L: Log> Desk<'a, D, L> {
    /// Ends the round, with all that it has: no task is with a worker any more. It takes no memory.
    ///
    /// Files that were begun for tasks and are not to come are taken away. A commit that was sealed and not published stays aside.
    pub fn closed(self) -> Closed<D, L>
        requires back { (k : KindOf) → list_any is_away (tasks_of k self.core) ≡ false }
        ensures same { D.tells → D.history result.disk ≡ D.history self.entry.disk }
        ensures counted { D.faults self.entry.disk ≤ D.faults result.disk }
        ensures history { result.history.items ≡ self.entry.history }
        ensures stop { result.stop ≡ self.entry.core.front.stop }
        ensures stopped { (f : CauseOf) → self.entry.core.front.stop ≡ Some f → IsStopOf (D.tells × L.tells) (Owns D.tells L.tells D.history L.lines self.entry) (setting_of L.lines self.entry.opening) (cuts_of (opening_in L.lines) self.entry) self.entry.core.front.committed result.key f }
        ensures no_key { self.entry.core.front.stop ≢ Some cause.KeyOverflow → result.key ≡ None }
        // Each log holds the same lines; and where a log stopped the desk, that log counts a fault.
        ensures logs { AllZip (LogWent L.tells L.lines L.available L.answers L.faults) self.entry.opening.logs.items result.logs.items }
        ensures faulty { self.entry.core.front.stop ≡ Some cause.LogFault → 0 < sum_by L.faults result.logs.items }
        ensures told { AreTold (Owns D.tells L.tells D.history L.lines self.entry) (setting_of L.lines self.entry.opening) (cuts_of (opening_in L.lines) self.entry) self.entry.opening.opened.committed (acknowledged_in self.entry.core) result.told.items }
        ensures next { MatchOption result.next ((ready_of self.entry.scope self.entry.core ≢ ready.Over) ⊎ ((shelf_of (opening_in L.lines) self.entry).tidy ≡ false))
            (λ next. (ready_of self.entry.scope self.entry.core ≡ ready.Over) × ((shelf_of (opening_in L.lines) self.entry).tidy ≡ true) × IsNext (Owns D.tells L.tells D.history L.lines self.entry) (setting_of L.lines self.entry.opening) (cuts_of (opening_in L.lines) self.entry) self.entry.scope.available self.entry.core (shelf_of (opening_in L.lines) self.entry) self.entry.opening.opened next.opened
            × AreIndexes (Unit {0}) self.entry.opening.view.bound.now next.opened.stores next.closings.items) }
    {
        self.ledger.is_legal();
        self.ledger.is_in_order();
        let is_over = is_over(self.ledger.ready(), self.ledger.is_tidy());
        let front = self.ledger.front();
        let Desk {
            mut ledger,
            mut load,
            ..
        } = self;
        let key = take_key(front.stop, &mut load.shares);
        drop_files(&mut ledger, &mut load);
        let (disk, history, names) = ledger.closed();
        let Load {
            view,
            plans,
            part_logs,
            held,
            seen,
            told,
            kept,
            ..
        } = load;
        let told = acknowledged(told, is_told(front));
        let (next, logs) = next_if(
            is_over,
            kept,
            held,
            plans,
            front.committed,
            view.bound,
            &seen,
            names,
        );
        Closed {
            disk,
            logs: logs_of(logs, part_logs),
            history,
            told,
            stop: front.stop,
            key,
            next,
        }
    }
}
