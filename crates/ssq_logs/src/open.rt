//! How the logs of the streams' parts are opened.

ghost use Rattle.std.specs.Prelude.{◌≡◌, ◌<◌, ◌≤◌, ◌+◌, ◌-◌, ◌++◌, ◌∷◌, [], ℕ, List, map, sum, IfOk, IfErr, OnOk, OnErr, IfSome, vec_len, vec_capacity};
ghost use Rattle.ssq_logs.specs.Parts.{counts_in, lines_in, IsOutside, InputsRise};
ghost use Rattle.ssq_logs.specs.Went.{InputsWent};
ghost use Rattle.ssq_logs.specs.Opened.{parts_from, parts_of, AreOpened, AreOpenedUpTo};

use crate::fault::PartsFault;
use ssq_outside::Inputs;
use ssq_shape::Stream;
use std::alloc::{AllocError, Global};

/// How many parts there are. `None` where that is no number of the machine.
fn total(counts: &[u32]) -> Option<usize>
    ensures { IfSome result (λ n. n ≡ sum counts.now) }
{
    let Some((count, rest)) = counts.split_first() else {
        return Some(0);
    };
    total(rest)?.checked_add(*count as usize)
}

/// Room for the logs of so many parts of each stream: a vector without logs, to which `open_logs` may add them all.
pub fn room<L: Drop>(alloc: Global, counts: &[u32]) -> Result<Vec<L>, AllocError>
    ensures empty { IfOk result (λ logs. logs.items ≡ []) }
    ensures room { IfOk result (λ logs. vec_len logs + sum counts.now ≤ vec_capacity logs) }
{
    let Some(total) = total(counts) else {
        return Err(AllocError);
    };
    Vec::with_capacity(alloc, total)
}

/// Opens a part of a stream, and puts its log after those that are there.
fn open_part<I: Inputs>(
    alloc: Global,
    inputs: &mut I,
    source: &str,
    part: u32,
    logs: &mut Vec<I::Log>,
) -> Result<(), PartsFault>
    requires part { I.tells → part < (I.held inputs.old).parts source.now }
    requires room { vec_len logs.old < vec_capacity logs.old }
    ensures opened { OnOk result (AreOpened I.tells I.Log.lines I.Log.available I.Log.answers I.Log.faults (I.held inputs.old) (I.available inputs.old) (record { source = source.now; number = part } ∷ []) logs.old.items logs.new.items) }
    ensures stopped { OnErr result (logs.new.items ≡ logs.old.items) }
    ensures filled { OnOk result (vec_len logs.new ≡ vec_len logs.old + 1) }
    ensures room { vec_capacity logs.new ≡ vec_capacity logs.old }
    ensures inputs { InputsWent I.tells I.held I.returned I.available inputs.old inputs.new [] }
    ensures counted { I.faults inputs.old ≤ I.faults inputs.new }
    ensures outside { IfErr result IsOutside }
    ensures cause { IfErr result (InputsRise (I.faults inputs.old) (I.faults inputs.new)) }
{
    let log = inputs.log(alloc, source, part)?;
    logs.push_reserved(log);
    Ok(())
}

/// Opens the parts of a stream from this one on, up to `end`.
#[tactic(auto, using(crate::proofs::Going::went_then))]
fn open_parts<I: Inputs>(
    alloc: Global,
    inputs: &mut I,
    source: &str,
    part: u32,
    end: u32,
    logs: &mut Vec<I::Log>,
) -> Result<(), PartsFault>
    requires parts { I.tells → end ≤ (I.held inputs.old).parts source.now }
    requires room { vec_len logs.old + (end - part) ≤ vec_capacity logs.old }
    ensures opened { OnOk result (AreOpened I.tells I.Log.lines I.Log.available I.Log.answers I.Log.faults (I.held inputs.old) (I.available inputs.old) (parts_from source.now part (end - part)) logs.old.items logs.new.items) }
    ensures stopped { OnErr result (AreOpenedUpTo I.tells I.Log.lines I.Log.available I.Log.answers I.Log.faults (I.held inputs.old) (I.available inputs.old) (parts_from source.now part (end - part)) logs.old.items logs.new.items) }
    ensures filled { OnOk result (vec_len logs.new ≡ vec_len logs.old + (end - part)) }
    ensures room { vec_capacity logs.new ≡ vec_capacity logs.old }
    ensures inputs { InputsWent I.tells I.held I.returned I.available inputs.old inputs.new [] }
    ensures counted { I.faults inputs.old ≤ I.faults inputs.new }
    ensures outside { IfErr result IsOutside }
    ensures cause { IfErr result (InputsRise (I.faults inputs.old) (I.faults inputs.new)) }
{
    if part >= end {
        return Ok(());
    }
    open_part(alloc, inputs, source, part, logs)?;
    open_parts(alloc, inputs, source, part + 1, end, logs)
}

/// Opens so many parts of each stream.
#[tactic(auto, using(crate::proofs::Going::went_then))]
fn put_logs<I: Inputs>(
    alloc: Global,
    inputs: &mut I,
    streams: &[Stream],
    counts: &[u32],
    logs: &mut Vec<I::Log>,
) -> Result<(), PartsFault>
    requires counts { I.tells → counts.now ≡ counts_in (I.held inputs.old) streams.now }
    requires room { vec_len logs.old + sum counts.now ≤ vec_capacity logs.old }
    ensures opened { OnOk result (AreOpened I.tells I.Log.lines I.Log.available I.Log.answers I.Log.faults (I.held inputs.old) (I.available inputs.old) (parts_of streams.now counts.now) logs.old.items logs.new.items) }
    ensures stopped { OnErr result (AreOpenedUpTo I.tells I.Log.lines I.Log.available I.Log.answers I.Log.faults (I.held inputs.old) (I.available inputs.old) (parts_of streams.now counts.now) logs.old.items logs.new.items) }
    ensures inputs { InputsWent I.tells I.held I.returned I.available inputs.old inputs.new [] }
    ensures counted { I.faults inputs.old ≤ I.faults inputs.new }
    ensures outside { IfErr result IsOutside }
    ensures cause { IfErr result (InputsRise (I.faults inputs.old) (I.faults inputs.new)) }
{
    let Some((stream, rest)) = streams.split_first() else {
        return Ok(());
    };
    let Some((count, more)) = counts.split_first() else {
        return Ok(());
    };
    open_parts(alloc, inputs, stream.source.as_str(), 0, *count, logs)?;
    put_logs(alloc, inputs, rest, more, logs)
}

/// Opens the log of each part of each stream, in order, and puts it after those that are there: so many parts of each stream as `counts` says,
/// for which there is room.
///
/// It fails with `LogFault` where the inputs failed, and with `NoMemory` where memory ran out, and is never `Full`. No log is lost then: those
/// that were opened before stand after those that were there.
pub fn open_logs<I: Inputs>(
    alloc: Global,
    inputs: &mut I,
    streams: &[Stream],
    counts: &[u32],
    logs: &mut Vec<I::Log>,
) -> Result<(), PartsFault>
    requires counts { I.tells → counts.now ≡ counts_in (I.held inputs.old) streams.now }
    requires room { vec_len logs.old + sum counts.now ≤ vec_capacity logs.old }
    ensures lines { I.tells → OnOk result (map I.Log.lines logs.new.items ≡ map I.Log.lines logs.old.items ++ lines_in (I.held inputs.old) streams.now) }
    ensures opened { OnOk result (AreOpened I.tells I.Log.lines I.Log.available I.Log.answers I.Log.faults (I.held inputs.old) (I.available inputs.old) (parts_of streams.now counts.now) logs.old.items logs.new.items) }
    ensures stopped { OnErr result (AreOpenedUpTo I.tells I.Log.lines I.Log.available I.Log.answers I.Log.faults (I.held inputs.old) (I.available inputs.old) (parts_of streams.now counts.now) logs.old.items logs.new.items) }
    ensures inputs { InputsWent I.tells I.held I.returned I.available inputs.old inputs.new [] }
    ensures counted { I.faults inputs.old ≤ I.faults inputs.new }
    ensures outside { IfErr result IsOutside }
    ensures cause { IfErr result (InputsRise (I.faults inputs.old) (I.faults inputs.new)) }
{
    put_logs(alloc, inputs, streams, counts, logs)
}
