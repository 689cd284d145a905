//! Prints times.
ghost use Rattle.std.specs.Prelude.{◌≡◌, ℕ, ◌+◌, ◌*◌, ◌/◌, ◌%◌, ◌<◌, ◌≤◌, ◌++◌, pos, ◌+ℤ◌, ◌≤ℤ◌, IfOk, OnOk, OnErr, unsigned_abs};
ghost use Rattle.std.specs.Int.{IsInRange};
ghost use Rattle.jiff_core.specs.Date.{epoch_day};
ghost use Rattle.ssq_time.specs.Time.{IsStampTime, moment, parts_text, stamp_text};

use jiff_core::civil::Date;
use std::alloc::{AllocError, Global};

const SECOND: u64 = 1_000_000;

const DAY: u64 = 86_400 * SECOND;

/// The days, and so the microseconds, from -9999-01-01, the first day of the calendar, to 1970-01-01.
const DAYS_BEFORE: u64 = 4_371_587;

const BEFORE: i64 = 4_371_587 * 86_400_000_000;

/// The digit of the tens, of a number below 100.
fn tens(n: u32) -> u8
    requires { n ≤ 99 }
    ensures { result ≡ 48 + n / 10 }
{
    b'0' + (n / 10) as u8
}

/// The digit of the units.
fn units(n: u32) -> u8
    ensures { result ≡ 48 + n % 10 }
{
    b'0' + (n % 10) as u8
}

/// Appends the text of those parts, as one piece.
#[tactic(auto, unfolding(crate::specs::Time::parts_text))]
fn put_parts(
    out: &mut Vec<u8>,
    year: u32,
    month: u32,
    day: u32,
    second: u32,
    micro: u32,
) -> Result<(), AllocError>
    requires year { year ≤ 9999 }
    requires month { month ≤ 12 }
    requires day { day ≤ 31 }
    requires second { second < 86400 }
    requires micro { micro < 1000000 }
    ensures ok { OnOk result (out.new.items ≡ out.old.items ++ parts_text year month day second micro) }
    ensures err { OnErr result (out.new.items ≡ out.old.items) }
{
    let (century, year) = (year / 100, year % 100);
    let (hour, minute, second) = (second / 3600, second / 60 % 60, second % 60);
    let (high, middle, low) = (micro / 10000, micro / 100 % 100, micro % 100);
    let mut text = [
        tens(century),
        units(century),
        tens(year),
        units(year),
        b'-',
        tens(month),
        units(month),
        b'-',
        tens(day),
        units(day),
        b'T',
        tens(hour),
        units(hour),
        b':',
        tens(minute),
        units(minute),
        b':',
        tens(second),
        units(second),
        b'.',
        tens(high),
        units(high),
        tens(middle),
        units(middle),
        tens(low),
        units(low),
        b'Z',
    ];
    if micro == 0 {
        text[19] = b'Z';
        out.extend_from_slice(&text[..20])
    } else {
        out.extend_from_slice(&text)
    }
}

/// The microseconds from the first day of the calendar, -9999-01-01, on.
fn since_first_day(time: i64) -> u64
    requires { IsStampTime time }
    ensures { time +ℤ pos 377705116800000000 ≡ pos result }
{
    (time + BEFORE) as u64
}

/// The day that many days after -9999-01-01, from 0001-01-01 on.
#[tactic(auto, using(crate::proofs::Parts::year_from_first))]
fn date_after(days: u32) -> Date
    requires first { 3652425 ≤ days }
    requires last { days ≤ 7304483 }
    ensures year { pos 1 ≤ℤ result.year }
    ensures day { epoch_day result +ℤ pos 4371587 ≡ pos days }
{
    Date::from_days_since_min(days)
}

/// Appends the text of a time of the years 0001 to 9999: `YYYY-MM-DDTHH:MM:SSZ`, with a point and
/// six digits before the `Z` where the fraction of the second is not 0. After an error `out` holds
/// what it held before.
pub fn put_time(out: &mut Vec<u8>, time: i64) -> Result<(), AllocError>
    requires { IsStampTime time }
    ensures ok { OnOk result (out.new.items ≡ out.old.items ++ stamp_text time) }
    ensures err { OnErr result (out.new.items ≡ out.old.items) }
{
    let since = since_first_day(time);
    let date = date_after((since / DAY) as u32);
    let micro = since % DAY;
    put_parts(
        out,
        date.year.unsigned_abs() as u32,
        date.month as u32,
        date.day as u32,
        (micro / SECOND) as u32,
        (micro % SECOND) as u32,
    )
}

/// The text of a time of the years 0001 to 9999, as `put_time` appends it.
pub fn time_text(alloc: Global, time: i64) -> Result<Vec<u8>, AllocError>
    requires { IsStampTime time }
    ensures { IfOk result (λ text. text.items ≡ stamp_text time) }
{
    let mut text = Vec::with_capacity(alloc, 27)?;
    put_time(&mut text, time)?;
    Ok(text)
}
