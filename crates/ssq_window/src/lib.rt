//! Windows of event time.
#![tactic(auto)]

ghost use Rattle.std.specs.Prelude.{◌≡◌, ◌+◌, ◌-◌, ◌*◌, ◌/◌, ◌^◌, ◌<◌, ◌≤◌, ℤ, pos, ◌*ℤ◌, ◌≤ℤ◌, unsigned_abs};
ghost use Rattle.ssq_time.specs.Time.{IsSpan, IsStampTime};
ghost use Rattle.ssq_window.specs.Window.{rest_of, window_count, first_start, AreWindows, Covers};

/// How many windows contain a time whose last window begins `rest` before it.
fn count_of(rest: u64, size: u64, slide: u64) -> u64
    requires rest { rest < slide }
    requires slide { slide ≤ size }
    requires size { size < 2 ^ 60 }
    ensures value { result ≡ (size - rest + (slide - 1)) / slide }
    ensures covers { Covers rest size slide result }
{
    (size - rest + (slide - 1)) / slide
}

/// How long before the time its last window begins.
fn rest_before(t: i64, slide: i64) -> u64
    requires time { IsStampTime t }
    requires slide { IsSpan slide }
    ensures value { result ≡ rest_of t slide }
    ensures below { result < unsigned_abs slide }
{
    t.rem_euclid(slide) as u64
}

/// How long before the time the first of `count` windows begins.
fn before_first(rest: u64, size: u64, slide: u64, count: u64) -> u64
    requires size { size < 2 ^ 60 }
    requires covers { Covers rest size slide count }
    ensures value { result ≡ rest + (count - 1) * slide }
    ensures below { result < size }
{
    rest + (count - 1) * slide
}

/// The windows of that size that contain the time, in microseconds: the start of the first, and
/// their number. Each begins one slide after the one before, at a multiple of the slide counted
/// from 1970-01-01T00:00:00Z, and contains its start but not its end. The time is of the years
/// 0001 to 9999, slide and size are spans, and the size is one to 64 slides.
pub fn windows_of(t: i64, size: i64, slide: i64) -> (i64, u32)
    requires time { IsStampTime t }
    requires slide { IsSpan slide }
    requires size { IsSpan size }
    requires least { slide ≤ℤ size }
    requires most { size ≤ℤ (pos 64 *ℤ slide) }
    ensures first { result.0 ≡ first_start t size slide }
    ensures count { result.1 ≡ window_count t size slide }
    ensures windows { AreWindows t size slide result.0 result.1 }
    ensures some { 1 ≤ result.1 }
    ensures few { result.1 ≤ 64 }
{
    let rest = rest_before(t, slide);
    let count = count_of(rest, size as u64, slide as u64);
    let before = before_first(rest, size as u64, slide as u64, count);
    (t - before as i64, count as u32)
}

/// The law of windows: those that begin at the first start and at each of the next slides, as many as are counted, are the windows
/// that contain the time, and there are 1 to 64.
pub fn windows_hold_their_time()
    ensures windows { (t size slide : ℤ) → IsSpan size → IsSpan slide → slide ≤ℤ size →
        AreWindows t size slide (first_start t size slide) (window_count t size slide) }
    ensures some { (t size slide : ℤ) → IsSpan size → IsSpan slide → slide ≤ℤ size → 1 ≤ window_count t size slide }
    ensures few { (t size slide : ℤ) → IsSpan size → IsSpan slide → slide ≤ℤ size → size ≤ℤ (pos 64 *ℤ slide) →
        window_count t size slide ≤ 64 }
{}
