//! What is taken out of a desk for a task. Nothing here takes memory.

ghost use Rattle.std.specs.Prelude.{◌≡◌, ◌<◌, ◌≤◌, ◌+◌, ◌++◌, ℕ, Some, None, All, IfSome, length, map, get_or, set, vec_capacity};
ghost use Rattle.ssq_time.specs.Time.{IsLineTime};
ghost use Rattle.ssq_water.specs.Water.{seen_at};
ghost use Rattle.ssq_task.specs.Lists.{joined_vecs};
ghost use Rattle.ssq_meaning.specs.Times.{later};
ghost use Rattle.ssq_desk.specs.Handing.{state_with, IsTaken, AreTaken, HasBucket, HasLineTime, CanRaise, bucket_in_fed, buckets_in, time_of_part_log, time_in_part_logs};

use crate::desk::{PartLog, Share};
use ssq_meaning::FedRow;
use ssq_outside::Log;
use ssq_task::{Held, State};
use ssq_value::Row;
use ssq_water::{Seen, raise};
use std::alloc::Global;
use std::mem;

/// Takes the log of a part out.
pub(crate) fn take_log<L: Log>(part_log: &mut PartLog<L>) -> L
    requires { (own : _) × (part_log.old.log ≡ Some own) }
    ensures log { part_log.old.log ≡ Some result }
    ensures rest { part_log.new ≡ record { stream = part_log.old.stream; part = part_log.old.part; from = part_log.old.from; log = None; fed = part_log.old.fed } }
{
    let Some(log) = mem::replace(&mut part_log.log, None) else {
        unreachable!()
    };
    log
}

/// Takes the room for buckets out of a partition.
pub(crate) fn take_room<S: Drop>(alloc: Global, share: &mut Share<S>) -> Vec<Vec<FedRow>>
    ensures room { result ≡ share.old.buckets }
    ensures rest { (share.new.stage ≡ share.old.stage) × (share.new.key ≡ share.old.key) }
{
    mem::replace(&mut share.buckets, Vec::new(alloc))
}

/// Takes what a partition keeps out: nothing where the query keeps no state.
pub(crate) fn take_held(held: &mut [Option<Held>], partition: usize) -> Option<Held>
    ensures held { result ≡ get_or held.old partition None }
    ensures rest { held.new ≡ set held.old partition None }
{
    if partition < held.len() {
        mem::replace(&mut held[partition], None)
    } else {
        None
    }
}

/// Takes the file aside out of a partition.
pub(crate) fn take_stage<S: Drop>(share: &mut Share<S>) -> Option<S>
    ensures stage { result ≡ share.old.stage }
    ensures rest { share.new ≡ record { buckets = share.old.buckets; stage = None; rows = share.old.rows; key = share.old.key } }
{
    mem::replace(&mut share.stage, None)
}

/// What a reduce task gets of its partition: what the partition keeps, with its file aside.
pub(crate) fn state_with<S: Drop>(held: Option<Held>, stage: Option<S>) -> Option<State<S>>
    ensures { result ≡ state_with held stage }
{
    match (held, stage) {
        (Some(held), Some(stage)) => Some(State { held, stage }),
        _ => None,
    }
}

/// Takes the bucket of a partition out of what was fed of a part.
fn take_bucket<L: Log>(
    alloc: Global,
    part_log: &mut PartLog<L>,
    partition: u32,
    into: &mut Vec<Vec<FedRow>>,
)
    requires room { length into.old.items < vec_capacity into.old }
    requires below { HasBucket partition part_log.old }
    ensures taken { IsTaken partition part_log.old part_log.new }
    ensures rows { joined_vecs into.new.items ≡ joined_vecs into.old.items ++ bucket_in_fed partition part_log.old.fed }
    ensures len { length into.new.items ≤ length into.old.items + 1 }
    ensures capacity { vec_capacity into.new ≡ vec_capacity into.old }
{
    if let Some(fed) = &mut part_log.fed {
        into.push_reserved(fed.buckets.take(alloc, partition));
    }
}

/// Takes the bucket of a partition out of what was fed of each part.
pub(crate) fn take_buckets<L: Log>(
    alloc: Global,
    part_logs: &mut [PartLog<L>],
    partition: u32,
    into: &mut Vec<Vec<FedRow>>,
)
    requires room { length into.old.items + length part_logs.old ≤ vec_capacity into.old }
    requires below { All (HasBucket partition) part_logs.old }
    ensures taken { AreTaken partition part_logs.old part_logs.new }
    ensures rows { joined_vecs into.new.items ≡ joined_vecs into.old.items ++ buckets_in partition part_logs.old }
{
    let Some((part_log, rest)) = part_logs.split_first_mut() else {
        return;
    };
    take_bucket(alloc, part_log, partition, into);
    take_buckets(alloc, rest, partition, into);
}

/// Takes in the greatest time of what was fed of a part.
fn raise_one<L: Log>(seen: &mut Seen, part_log: &PartLog<L>)
    requires stream { part_log.now.stream < length seen.old }
    requires years { HasLineTime part_log.now }
    ensures times { (stream : ℕ) → seen_at seen.new stream ≡ later (seen_at seen.old stream) (time_of_part_log stream part_log.now) }
    ensures streams { length seen.new ≡ length seen.old }
{
    if let Some(fed) = &part_log.fed {
        if let Some(time) = fed.time {
            raise(seen, part_log.stream, time);
        }
    }
}

/// Takes in the greatest time of what was fed of each part.
pub(crate) fn raise_all<L: Log>(seen: &mut Seen, part_logs: &[PartLog<L>])
    requires { CanRaise (length seen.old) part_logs.now }
    ensures times { (stream : ℕ) → seen_at seen.new stream ≡ later (seen_at seen.old stream) (time_in_part_logs stream part_logs.now) }
    ensures streams { length seen.new ≡ length seen.old }
{
    let Some((part_log, rest)) = part_logs.split_first() else {
        return;
    };
    raise_one(seen, part_log);
    raise_all(seen, rest);
}

/// Takes the rows of each partition out.
pub(crate) fn take_rows<S: Drop>(alloc: Global, shares: &mut [Share<S>], into: &mut Vec<Vec<Row>>)
    requires { length into.old.items + length shares.old ≤ vec_capacity into.old }
    ensures rows { map (λ rows. rows.items) into.new.items ≡ map (λ rows. rows.items) into.old.items ++ map (λ share. share.rows.items) shares.old }
    ensures count { length shares.new ≡ length shares.old }
    ensures keys { map (λ share. share.key) shares.new ≡ map (λ share. share.key) shares.old }
{
    let Some((share, rest)) = shares.split_first_mut() else {
        return;
    };
    into.push_reserved(mem::replace(&mut share.rows, Vec::new(alloc)));
    take_rows(alloc, rest, into);
}
