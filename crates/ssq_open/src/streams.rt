//! The watermarked streams, and the watermark that their greatest times give.

ghost use Rattle.std.specs.Prelude.{◌≡◌, ◌↔◌, ◌<◌, ◌≤◌, ◌^◌, length, slice_index_or, is_some, if◌then◌else◌, IfOk, IsTrue};
ghost use Rattle.ssq_meaning.specs.Times.{earlier};
ghost use Rattle.ssq_open.specs.Watermarks.{watermarked, is_line_of, has_lines, mark_of, mark_by};

use ssq_plans::SeenBy;
use ssq_shape::Stream;
use ssq_value::Sequence;
use std::alloc::{AllocError, Global};

/// A watermarked stream.
#[derive(Clone, Copy)]
pub struct Watermarked {
    /// The stream's place in the query's order, from 0.
    pub stream: u32,
    /// How late a row may come, in microseconds.
    pub delay: i64,
}

/// The watermarked streams, in the order of the query.
pub(crate) fn watermarked_among(
    alloc: Global,
    streams: &[Stream],
) -> Result<Sequence<Watermarked>, AllocError>
    requires { length streams.now ≤ 2 ^ 32 }
    ensures { IfOk result (λ found. found ≡ watermarked streams.now) }
{
    let mut found = Sequence::new(alloc);
    for (at, stream) in streams.iter().enumerate() {
        if let Some(delay) = stream.delay {
            found.push(Watermarked {
                stream: at as u32,
                delay,
            })?;
        }
    }
    Ok(found)
}

fn is_line_of(stream: Watermarked, seen: SeenBy) -> bool
    ensures { result ≡ is_line_of (stream, seen) }
{
    stream.stream == seen.stream
}

/// Whether there is one line for each watermarked stream, in order.
pub(crate) fn has_lines(streams: &[Watermarked], seen: &[SeenBy]) -> bool
    ensures { result ≡ has_lines streams.now seen.now }
{
    if streams.len() != seen.len() {
        return false;
    }
    for (at, stream) in streams.iter().enumerate() {
        if !is_line_of(*stream, seen[at]) {
            return false;
        }
    }
    true
}

/// A stream's greatest time less its delay. In 128 bits, which hold each difference of two times.
fn mark_of(stream: Watermarked, seen: SeenBy) -> Option<i128>
    ensures { result ≡ mark_of (stream, seen) }
{
    match seen.time {
        Some(time) => Some(time as i128 - stream.delay as i128),
        None => None,
    }
}

/// The lesser of this mark and the least of those before it, where there were any.
fn lesser(least: Option<i128>, mark: Option<i128>) -> Option<i128>
    ensures { result ≡ (if is_some least then earlier least mark else mark) }
{
    match (least, mark) {
        (None, _) => mark,
        (Some(_), None) => None,
        (Some(least), Some(mark)) => Some(least.min(mark)),
    }
}

/// The greatest time at a place.
fn seen_at(seen: &[SeenBy], at: usize) -> SeenBy
    requires { at < length seen.now }
    ensures { result ≡ slice_index_or seen.now at result }
{
    seen[at]
}

/// The watermark that these greatest times give, which are one for each watermarked stream.
pub(crate) fn mark_by(streams: &[Watermarked], seen: &[SeenBy]) -> Option<i128>
    requires { length streams.now ≡ length seen.now }
    ensures { result ≡ mark_by streams.now seen.now }
{
    let mut least = None;
    for (at, stream) in streams.iter().enumerate() {
        let own = seen_at(seen, at);
        let mark = mark_of(*stream, own);
        if mark.is_none() {
            return None;
        }
        least = lesser(least, mark);
    }
    least
}

/// Whether a plan's watermark is this one.
pub(crate) fn is_mark(watermark: Option<i64>, mark: Option<i128>) -> bool
    ensures { IsTrue result ↔ (watermark ≡ mark) }
{
    match (watermark, mark) {
        (None, None) => true,
        (Some(time), Some(mark)) => time as i128 == mark,
        _ => false,
    }
}
