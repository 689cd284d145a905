//! How many parts the streams have.

ghost use Rattle.std.specs.Prelude.{◌≡◌, ◌≤◌, ◌+◌, ◌++◌, ◌∷◌, [], ℕ, List, All, length, IfOk, IfErr, OnOk, IfSome, IfNone, ◌<◌};
ghost use Rattle.ssq_logs.specs.Parts.{counts_in, IsFew, IsOutside, most_parts, PartsCause, CauseBehind, InputsRise};
ghost use Rattle.ssq_logs.specs.Went.{InputsWent};

use crate::fault::PartsFault;
use ssq_outside::Inputs;
use ssq_shape::Stream;
use ssq_value::Sequence;
use std::alloc::{AllocError, Global};

/// More parts than these are not taken of a stream.
const MOST_PARTS: u32 = 64;

/// How many parts a stream has, where these are not too many.
fn few_parts<I: Inputs>(
    alloc: Global,
    inputs: &mut I,
    stream: &Stream,
) -> Result<Option<u32>, PartsFault>
    ensures found { I.tells → IfOk result (λ found. IfSome found (λ n. n ≡ (I.held inputs.old).parts stream.now.source)) }
    ensures few { IfOk result (λ found. IfSome found IsFew) }
    ensures many { I.tells → IfOk result (λ found. IfNone found (most_parts < (I.held inputs.old).parts stream.now.source)) }
    ensures fault { IfErr result IsOutside }
    ensures inputs { InputsWent I.tells I.held I.returned I.available inputs.old inputs.new [] }
    ensures counted { I.faults inputs.old ≤ I.faults inputs.new }
    ensures cause { IfErr result (InputsRise (I.faults inputs.old) (I.faults inputs.new)) }
{
    let count = inputs.parts(alloc, stream.source.as_str())?;
    if count > MOST_PARTS {
        return Ok(None);
    }
    Ok(Some(count))
}

/// Adds how many parts each stream has.
#[tactic(auto, using(crate::proofs::Going::went_then))]
fn put_counts<I: Inputs>(
    alloc: Global,
    inputs: &mut I,
    streams: &[Stream],
    counts: &mut Sequence<u32>,
) -> Result<(), PartsFault>
    ensures counts { I.tells → OnOk result (counts.new ≡ counts.old ++ counts_in (I.held inputs.old) streams.now) }
    ensures few { OnOk result (All IsFew counts.old → All IsFew counts.new) }
    ensures each { OnOk result (length counts.new ≡ length counts.old + length streams.now) }
    ensures fault { I.tells → IfErr result (CauseBehind (length counts.old) (I.held inputs.old) streams.now) }
    ensures inputs { InputsWent I.tells I.held I.returned I.available inputs.old inputs.new [] }
    ensures counted { I.faults inputs.old ≤ I.faults inputs.new }
    ensures cause { IfErr result (InputsRise (I.faults inputs.old) (I.faults inputs.new)) }
{
    let Some((stream, rest)) = streams.split_first() else {
        return Ok(());
    };
    let Some(count) = few_parts(alloc, inputs, stream)? else {
        return Err(PartsFault::Full {
            stream: counts.len(),
        });
    };
    push(counts, count)?;
    put_counts(alloc, inputs, rest, counts)
}

fn push(counts: &mut Sequence<u32>, count: u32) -> Result<(), AllocError>
    ensures { OnOk result (counts.new ≡ counts.old ++ count ∷ []) }
{
    counts.push(count)?;
    Ok(())
}

/// How many parts each stream has, in the order of FROM. The first stream with more than 64 is refused.
pub fn count_parts<I: Inputs>(
    alloc: Global,
    inputs: &mut I,
    streams: &[Stream],
) -> Result<Sequence<u32>, PartsFault>
    ensures counts { I.tells → IfOk result (λ counts. counts ≡ counts_in (I.held inputs.old) streams.now) }
    ensures few { IfOk result (All IsFew) }
    ensures each { IfOk result (λ counts. length counts ≡ length streams.now) }
    ensures fault { I.tells → IfErr result (PartsCause (I.held inputs.old) streams.now) }
    ensures inputs { InputsWent I.tells I.held I.returned I.available inputs.old inputs.new [] }
    ensures counted { I.faults inputs.old ≤ I.faults inputs.new }
    ensures cause { IfErr result (InputsRise (I.faults inputs.old) (I.faults inputs.new)) }
{
    let mut counts = Sequence::new(alloc);
    put_counts(alloc, inputs, streams, &mut counts)?;
    Ok(counts)
}
