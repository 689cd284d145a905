//! The parts of a query's streams, and the lines that were found in them.

ghost use Rattle.std.specs.Prelude.{◌≡◌, ◌≤◌, ◌^◌, ◌++◌, All, length, IfOk, OnOk};
ghost use Rattle.ssq_open.specs.Lens.{counts_of, found_in, found_from, IsFew};

use ssq_plans::PartEnd;
use ssq_value::Sequence;
use std::alloc::{AllocError, Global};

/// How many parts each stream has.
pub(crate) fn counts_of(
    alloc: Global,
    streams: &[Sequence<u64>],
) -> Result<Sequence<u32>, AllocError>
    requires { All IsFew streams.now }
    ensures { IfOk result (λ counts. counts ≡ counts_of streams.now) }
{
    let mut counts = Sequence::new(alloc);
    for parts in streams {
        counts.push(parts.len() as u32)?;
    }
    Ok(counts)
}

/// Adds the parts of a stream, each with the lines that were found in it.
fn push_found(found: &mut Sequence<PartEnd>, stream: u32, parts: &[u64]) -> Result<(), AllocError>
    requires { length parts.now ≤ 64 }
    ensures { OnOk result (found.new ≡ found.old ++ found_in stream 0 parts.now) }
{
    for (part, lines) in parts.iter().enumerate() {
        found.push(PartEnd {
            stream,
            part: part as u32,
            end: *lines,
        })?;
    }
    Ok(())
}

/// The parts of all streams, in order, each with the lines that were found in it.
pub(crate) fn found_in(
    alloc: Global,
    streams: &[Sequence<u64>],
) -> Result<Sequence<PartEnd>, AllocError>
    requires few { All IsFew streams.now }
    requires fits { length streams.now ≤ 2 ^ 32 }
    ensures { IfOk result (λ found. found ≡ found_from 0 streams.now) }
{
    let mut found = Sequence::new(alloc);
    for (stream, parts) in streams.iter().enumerate() {
        push_found(&mut found, stream as u32, parts.as_slice())?;
    }
    Ok(found)
}
