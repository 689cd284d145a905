//! When an epoch without lines is due.

ghost use Rattle.std.specs.Prelude.{◌≡◌, length};
ghost use Rattle.ssq_meaning.specs.Times.{is_above};
ghost use Rattle.ssq_water.specs.Water.{HasDelays, seen_at};
ghost use Rattle.ssq_desk.specs.Round.{is_due};

use ssq_shape::{Bound, closes};
use ssq_water::{Seen, watermark};

/// Whether the one watermark is above the other.
fn is_above(now: Option<i64>, before: Option<i64>) -> bool
    ensures { result ≡ is_above now before }
{
    match (now, before) {
        (None, _) => false,
        (Some(_), None) => true,
        (Some(now), Some(before)) => now > before,
    }
}

/// Whether an epoch without lines is due once there are these greatest times, after one with this watermark.
pub(crate) fn is_due(bound: &Bound, seen: &Seen, last: Option<i64>) -> bool
    requires streams { length seen.now ≡ length bound.now.streams }
    requires delays { HasDelays bound.now }
    ensures { result ≡ is_due bound.now (seen_at seen.now) last }
{
    closes(bound) && is_above(watermark(seen, bound), last)
}
