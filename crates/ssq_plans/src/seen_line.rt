//! The lines of commits.
ghost use Rattle.std.specs.Prelude.{◌≡◌, ◌++◌, ◌<◌, List, ℕ, IfSome, IsSomeAnd, length};
ghost use Rattle.std.specs.Option.{ForSome};
ghost use Rattle.ssq_time.specs.Time.{IsLineTime};
ghost use Rattle.ssq_plans.specs.Records.{seen_line, HasLineTime, IsSeen};

use crate::fields::{short_after, time_line_after};
use crate::lines::Line;
use crate::seen::SeenBy;
use crate::writer::Writer;
use ssq_time::is_line_time;

/// The greatest time of a stream, where it is none or of the years 1000 to 9000.
fn seen_by(stream: u32, time: Option<i64>) -> Option<SeenBy>
    ensures value { IfSome result (λ seen. (seen.stream ≡ stream) × (seen.time ≡ time)) }
    ensures in_range { IfSome result HasLineTime }
    ensures each { ForSome time IsLineTime → IsSomeAnd result (λ seen. (seen.stream ≡ stream) × (seen.time ≡ time)) }
{
    match time {
        None => Some(SeenBy { stream, time: None }),
        Some(at) => {
            if is_line_time(at) {
                Some(SeenBy {
                    stream,
                    time: Some(at),
                })
            } else {
                None
            }
        }
    }
}

/// The line of a stream's greatest time.
impl Line for SeenBy {
    ghost spelled = { λ at seen. seen_line seen };

    ghost is_written = { HasLineTime };

    ghost is_read = { IsSeen };

    fn put(&self, at: u64, out: &mut Writer) {
        out.put_number(b"seen ", self.stream as u64);
        out.put_time_line(b" ", self.time);
    }

    fn take(at: u64, text: &[u8]) -> Option<(SeenBy, &[u8])> {
        let (stream, text) = short_after(text, b"seen ")?;
        let (time, text) = time_line_after(text, b" ")?;
        let seen = seen_by(stream, time)?;
        Some((seen, text))
    }
}
