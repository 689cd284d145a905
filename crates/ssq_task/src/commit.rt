//! The commit of an epoch by the greatest event times, and these by the lines of a commit.

ghost use Rattle.std.specs.Prelude.{◌≡◌, ◌<◌, ◌≤◌, ◌^◌, ℕ, length, All, IfOk};
ghost use Rattle.ssq_plans.specs.Records.{HasLineTime, commit_text};
ghost use Rattle.ssq_water.specs.Water.{seen_at, AreLineTimes};
ghost use Rattle.ssq_task.specs.Committing.{lines_of, commit_at, told, AreOwn};

use ssq_field::Bytes;
use ssq_plans::{Commit, SeenBy, write_commit};
use ssq_shape::Bound;
use ssq_value::Sequence;
use ssq_water::{Seen, raise};
use std::alloc::{AllocError, Global};

/// The lines of a commit: the greatest time of each watermarked stream, in the order of FROM.
fn lines_of(
    alloc: Global,
    bound: &Bound,
    times: &[Option<i64>],
) -> Result<Sequence<SeenBy>, AllocError>
    requires each { length times.now ≡ length bound.now.streams }
    requires few { length bound.now.streams ≤ 2 ^ 32 }
    requires years { AreLineTimes times.now }
    ensures lines { IfOk result (λ lines. lines ≡ lines_of bound.now times.now) }
    ensures years { IfOk result (λ lines. All HasLineTime lines) }
{
    let mut lines = Sequence::new(alloc);
    for (at, stream) in bound.streams.as_slice().iter().enumerate() {
        if stream.delay.is_some() {
            lines.push(SeenBy {
                stream: at as u32,
                time: times[at],
            })?;
        }
    }
    Ok(lines)
}

/// The text of the commit of an epoch, by the greatest times over all epochs up to and with this one.
pub(crate) fn commit_record(
    alloc: Global,
    bound: &Bound,
    epoch: u32,
    seen: &Seen,
) -> Result<Bytes, AllocError>
    requires each { length seen.now ≡ length bound.now.streams }
    requires few { length bound.now.streams ≤ 2 ^ 32 }
    ensures { IfOk result (λ text. text ≡ commit_text (commit_at bound.now epoch seen.now)) }
{
    let seen = lines_of(alloc, bound, seen.times())?;
    write_commit(alloc, &Commit { epoch, seen })
}

/// The greatest times that the lines of a commit tell, and none for a stream without a line. No lines, of no commit, tell none.
///
/// Each line is of a stream of the query, and has a time of the years 1000 to 9000 or none.
pub fn seen_from(alloc: Global, bound: &Bound, lines: &[SeenBy]) -> Result<Seen, AllocError>
    requires streams { All (λ line. line.stream < length bound.now.streams) lines.now }
    requires years { All HasLineTime lines.now }
    ensures times { IfOk result (λ seen. (stream : ℕ) → seen_at seen stream ≡ told lines.now stream) }
    ensures streams { IfOk result (λ seen. length seen ≡ length bound.now.streams) }
    // Of one line for each watermarked stream, in order: a commit of these times has these lines.
    ensures inverse { IfOk result (λ seen. AreOwn bound.now lines.now → lines_of bound.now seen ≡ lines.now) }
{
    let mut seen = Seen::new(alloc, bound)?;
    for line in lines {
        if let Some(time) = line.time {
            raise(&mut seen, line.stream, time);
        }
    }
    Ok(seen)
}
