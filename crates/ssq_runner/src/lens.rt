//! The lines that were found, apart by stream.

ghost use Rattle.std.specs.Prelude.{◌≡◌, ◌≤◌, ◌++◌, ◌∷◌, [], sum, length, IfOk, OnOk};
ghost use Rattle.ssq_runner.specs.Lens.{apart, lens_of};

use ssq_open::Lens;
use ssq_value::Sequence;
use std::alloc::{AllocError, Global};

/// Adds the lines of each stream after those that are there.
fn put_streams(
    alloc: Global,
    counts: &[u32],
    found: &[u64],
    streams: &mut Sequence<Sequence<u64>>,
) -> Result<(), AllocError>
    requires { sum counts.now ≤ length found.now }
    ensures { OnOk result (streams.new ≡ streams.old ++ apart counts.now found.now) }
{
    let Some((count, rest)) = counts.split_first() else {
        return Ok(());
    };
    let (own, others) = found.split_at(*count as usize);
    let own = Vec::from_slice(alloc, own)?;
    streams.push(Sequence::from_vec(own))?;
    put_streams(alloc, rest, others, streams)
}

/// The lines that were found in each part, of streams that have so many parts each.
pub(crate) fn lens_of(alloc: Global, counts: &[u32], found: &[u64]) -> Result<Lens, AllocError>
    requires { sum counts.now ≤ length found.now }
    ensures { IfOk result (λ lens. lens ≡ lens_of counts.now found.now) }
{
    let mut streams = Sequence::new(alloc);
    put_streams(alloc, counts, found, &mut streams)?;
    Ok(Lens { streams })
}
