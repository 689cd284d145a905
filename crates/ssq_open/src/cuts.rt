//! Where epochs end.

ghost use Rattle.std.specs.Prelude.{◌≡◌, ◌≤◌, ◌^◌, ◌++◌, length, IfOk, OnOk};
ghost use Rattle.ssq_open.specs.Epochs.{start_of, starts, keeps_up, follows, is_next};
ghost use Rattle.ssq_open.specs.Looking.{parts_of, begins};

use ssq_plans::{PartEnd, Plan};
use ssq_value::Sequence;
use std::alloc::{AllocError, Global};

fn start_of(part: PartEnd) -> PartEnd
    ensures { result ≡ start_of part }
{
    PartEnd {
        stream: part.stream,
        part: part.part,
        end: 0,
    }
}

/// Where the parts begin.
pub(crate) fn starts(alloc: Global, found: &[PartEnd]) -> Result<Sequence<PartEnd>, AllocError>
    ensures { IfOk result (λ ends. ends ≡ starts found.now) }
{
    let mut ends = Sequence::new(alloc);
    for part in found {
        ends.push(start_of(*part))?;
    }
    Ok(ends)
}

/// Adds the first parts of a stream, where they begin.
fn push_parts(ends: &mut Sequence<PartEnd>, stream: u32, count: u32) -> Result<(), AllocError>
    ensures { OnOk result (ends.new ≡ ends.old ++ parts_of stream count) }
{
    for part in 0..count {
        ends.push(PartEnd {
            stream,
            part,
            end: 0,
        })?;
    }
    Ok(())
}

/// Where the parts of all streams begin, each of which has so many: no line of any part is before it.
pub fn begins(alloc: Global, parts: &[u32]) -> Result<Sequence<PartEnd>, AllocError>
    requires { length parts.now ≤ 2 ^ 32 }
    ensures { IfOk result (λ ends. ends ≡ begins parts.now) }
{
    let mut ends = Sequence::new(alloc);
    for (stream, count) in parts.iter().enumerate() {
        push_parts(&mut ends, stream as u32, *count)?;
    }
    Ok(ends)
}

/// Whether it is the same part, and its end does not fall.
fn keeps_up(before: PartEnd, end: PartEnd) -> bool
    ensures { result ≡ keeps_up (before, end) }
{
    before.stream == end.stream && before.part == end.part && before.end <= end.end
}

/// Whether these are the same parts in the same order, and no end falls.
fn follows(before: &[PartEnd], ends: &[PartEnd]) -> bool
    ensures { result ≡ follows before.now ends.now }
{
    if before.len() != ends.len() {
        return false;
    }
    for (at, part) in before.iter().enumerate() {
        if !keeps_up(*part, ends[at]) {
            return false;
        }
    }
    true
}

/// Whether this is the plan of that epoch, where the epochs before it end there.
pub(crate) fn is_next(before: &[PartEnd], epoch: u32, plan: &Plan) -> bool
    ensures { result ≡ is_next before.now epoch plan.now }
{
    plan.epoch == epoch && epoch < u32::MAX && follows(before, plan.ends.as_slice())
}
