//! The years that times are of.
ghost use Rattle.std.specs.Prelude.{◌≡◌, ◌↔◌, IsTrue};
ghost use Rattle.ssq_time.specs.Time.{IsLineTime, IsStampTime, is_stamp_time};

/// 1000-01-01T00:00:00Z.
const FIRST_LINE: i64 = -30_610_224_000_000_000;

/// The last microsecond of the year 9000.
const LAST_LINE: i64 = 221_876_927_999_999_999;

/// 0001-01-01T00:00:00Z.
const FIRST_STAMP: i64 = -62_135_596_800_000_000;

/// The last microsecond of the year 9999.
const LAST_STAMP: i64 = 253_402_300_799_999_999;

/// Whether a time is of the years 1000 to 9000, as each time of a line is.
pub fn is_line_time(time: i64) -> bool
    ensures { IsTrue result ↔ IsLineTime time }
{
    FIRST_LINE <= time && time <= LAST_LINE
}

/// Whether a time is of the years 0001 to 9999, which alone are printed.
pub fn is_stamp_time(time: i64) -> bool
    ensures test { result ≡ is_stamp_time time }
    ensures years { IsTrue result ↔ IsStampTime time }
{
    FIRST_STAMP <= time && time <= LAST_STAMP
}
