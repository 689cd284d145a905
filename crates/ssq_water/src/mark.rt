//! The watermark.

ghost use Rattle.std.specs.Prelude.{◌≡◌, ◌-ℤ◌, length, IfSome};
ghost use Rattle.ssq_time.specs.Time.{IsLineTime, IsStampTime};
ghost use Rattle.ssq_meaning.specs.Times.{delays, watermark_by};
ghost use Rattle.ssq_water.specs.Water.{seen_at, lesser, IsDelay, HasDelays};

use crate::seen::Seen;
use ssq_shape::Bound;

/// A stream's greatest time less its delay.
#[tactic(auto, using(crate::proofs::Marks::marks))]
fn less_delay(time: i64, delay: i64) -> i64
    requires time { IsLineTime time }
    requires delay { IsDelay delay }
    ensures mark { result ≡ time -ℤ delay }
    ensures years { IsStampTime result }
{
    time - delay
}

/// The lesser of the marks so far and another.
fn lesser(least: Option<i64>, mark: i64) -> i64
    ensures lesser { result ≡ lesser least mark }
    ensures years { IfSome least IsStampTime → IsStampTime mark → IsStampTime result }
{
    match least {
        Some(least) => least.min(mark),
        None => mark,
    }
}

/// The watermark of the epoch after what was seen, in microseconds since 1970: the least of greatest event time less delay over the
/// watermarked streams. There is none while one of these has no row, or where no stream is watermarked.
pub fn watermark(seen: &Seen, bound: &Bound) -> Option<i64>
    requires streams { length seen.now ≡ length bound.now.streams }
    requires delays { HasDelays bound.now }
    ensures watermark { result ≡ watermark_by (delays bound.now) (seen_at seen.now) }
    // It can be printed.
    ensures years { IfSome result IsStampTime }
{
    let times = seen.times();
    let mut least: Option<i64> = None;
    for (at, stream) in bound.streams.as_slice().iter().enumerate() {
        if let Some(delay) = stream.delay {
            least = Some(lesser(least, less_delay(times[at]?, delay)));
        }
    }
    least
}
