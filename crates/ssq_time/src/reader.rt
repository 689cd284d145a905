//! Reads the texts of times.
ghost use Rattle.std.specs.Prelude.{◌≡◌, ◌+◌, ◌<◌, ◌≤◌, pos, length, min, IfSome, Some, ℤ};
ghost use Rattle.std.specs.Int.{IsInRange};
ghost use Rattle.jiff_core.specs.Calendar.{IsYear, IsEpochDay, days_in_month};
ghost use Rattle.ssq_time.specs.Time.{day_number, day_at_head, second_number, second_behind_day, micros_written, micros_of, moment, IsLineTime, IsStampTime, time_of, stamp_text, six_micros_of, stamp_micros_of, stamp_of};

use crate::digits::{decimal, two};
use jiff_core::civil::Date;

const SECOND: i64 = 1_000_000;

const DAY: i64 = 86_400 * SECOND;

/// The day, or the last of its month where the month is shorter. Each month has 28 days, and most days are one of them.
fn date_near(year: i16, month: u8, day: u8) -> Date
    requires year_in { IsYear year }
    requires month_in { IsInRange 1 12 month }
    requires day_in { 1 ≤ day }
    ensures year { result.year ≡ year }
    ensures month { result.month ≡ month }
    ensures day { result.day ≡ min day (days_in_month year month) }
{
    if day <= 28 {
        Date { year, month, day }
    } else {
        Date::constrain(year, month, day)
    }
}

/// The day's number from 1970-01-01, where the calendar has the day.
#[tactic(auto, unfolding(crate::specs::Time::day_number))]
fn day_from(first: u16, last: u16, year: u16, month: u8, day: u8) -> Option<i32>
    requires { last ≤ 9999 }
    ensures value { result ≡ day_number first last year month day }
    ensures bound { IfSome result IsEpochDay }
{
    if year < first || year > last || month < 1 || month > 12 || day < 1 {
        return None;
    }
    let date = date_near(year as i16, month, day);
    if date.day != day {
        return None;
    }
    Some(date.to_unix_epoch_day())
}

/// `YYYY-MM-DD` at the head of a text.
#[tactic(auto, unfolding(crate::specs::Time::day_at_head))]
#[inline(always)]
fn day_at(first: u16, last: u16, text: &[u8]) -> Option<i32>
    requires years { last ≤ 9999 }
    requires room { 20 ≤ length text.now }
    ensures value { result ≡ day_at_head first last text.now }
    ensures bound { IfSome result IsEpochDay }
{
    let century = two(text, 0)?;
    let year = two(text, 2)?;
    let month = two(text, 5)?;
    let day = two(text, 8)?;
    if text[4] == b'-' && text[7] == b'-' {
        day_from(first, last, 100 * century as u16 + year as u16, month, day)
    } else {
        None
    }
}

/// The seconds of a day up to that time of day.
#[tactic(auto, unfolding(crate::specs::Time::second_number))]
fn second_from(hour: u8, minute: u8, second: u8) -> Option<u32>
    ensures value { result ≡ second_number hour minute second }
    ensures bound { IfSome result (λ n. n < 86400) }
{
    if hour <= 23 && minute <= 59 && second <= 59 {
        Some(3600 * hour as u32 + 60 * minute as u32 + second as u32)
    } else {
        None
    }
}

/// `THH:MM:SS` after the day.
#[tactic(auto, unfolding(crate::specs::Time::second_behind_day))]
#[inline(always)]
fn second_at(text: &[u8]) -> Option<u32>
    requires { 20 ≤ length text.now }
    ensures value { result ≡ second_behind_day text.now }
    ensures bound { IfSome result (λ n. n < 86400) }
{
    let hour = two(text, 11)?;
    let minute = two(text, 14)?;
    let second = two(text, 17)?;
    if text[10] == b'T' && text[13] == b':' && text[16] == b':' {
        second_from(hour, minute, second)
    } else {
        None
    }
}

/// A point and `written` digits after the seconds: microseconds.
#[tactic(auto, unfolding(crate::specs::Time::micros_written))]
#[inline(always)]
fn micros_from(written: usize, text: &[u8]) -> Option<u32>
    requires { 20 + written ≤ length text.now }
    ensures value { result ≡ micros_written written text.now }
    ensures bound { IfSome result (λ n. n < 1000000) }
{
    let a = decimal(text, written, 0)?;
    let b = decimal(text, written, 1)?;
    let c = decimal(text, written, 2)?;
    let d = decimal(text, written, 3)?;
    let e = decimal(text, written, 4)?;
    let f = decimal(text, written, 5)?;
    if text[19] == b'.' {
        let milli = 100 * a as u32 + 10 * b as u32 + c as u32;
        let micro = 100 * d as u32 + 10 * e as u32 + f as u32;
        Some(1000 * milli + micro)
    } else {
        None
    }
}

/// What stands after the seconds, up to the `Z` that ends the text.
#[tactic(auto, unfolding(crate::specs::Time::micros_of))]
fn micros_at(text: &[u8]) -> Option<u32>
    requires { 20 ≤ length text.now }
    ensures value { result ≡ micros_of text.now }
    ensures bound { IfSome result (λ n. n < 1000000) }
{
    if text[text.len() - 1] == b'Z' {
        if text.len() == 20 {
            Some(0)
        } else if text.len() == 27 {
            micros_from(6, text)
        } else if 22 <= text.len() && text.len() <= 27 {
            micros_from(text.len() - 21, text)
        } else {
            None
        }
    } else {
        None
    }
}

/// A day's number, a second of that day and a microsecond of that second, as one number.
fn joined(day: i32, second: u32, micro: u32) -> i64
    requires day { IsEpochDay day }
    requires second { second < 86400 }
    requires micro { micro < 1000000 }
    ensures { result ≡ moment day second micro }
{
    day as i64 * DAY + (second as i64 * SECOND + micro as i64)
}

/// A point and six digits that are not all 0.
#[tactic(auto, unfolding(crate::specs::Time::six_micros_of))]
fn six_micros_at(text: &[u8]) -> Option<u32>
    requires { 26 ≤ length text.now }
    ensures value { result ≡ six_micros_of text.now }
    ensures bound { IfSome result (λ n. n < 1000000) }
{
    let micro = micros_from(6, text)?;
    if micro == 0 { None } else { Some(micro) }
}

/// What stands after the seconds of a printed text, up to the `Z` that ends it.
#[tactic(auto, unfolding(crate::specs::Time::stamp_micros_of))]
fn stamp_micros_at(text: &[u8]) -> Option<u32>
    requires { 20 ≤ length text.now }
    ensures value { result ≡ stamp_micros_of text.now }
    ensures bound { IfSome result (λ n. n < 1000000) }
{
    if text[text.len() - 1] == b'Z' {
        if text.len() == 20 {
            Some(0)
        } else if text.len() == 27 {
            six_micros_at(text)
        } else {
            None
        }
    } else {
        None
    }
}

#[tactic(auto, unfolding(crate::specs::Time::time_of))]
fn time_in(text: &[u8]) -> Option<i64>
    ensures { result ≡ time_of text.now }
{
    if text.len() < 20 {
        return None;
    }
    let day = day_at(1000, 9000, text)?;
    let second = second_at(text)?;
    let micro = micros_at(text)?;
    Some(joined(day, second, micro))
}

#[tactic(auto, unfolding(crate::specs::Time::stamp_of))]
fn stamp_in(text: &[u8]) -> Option<i64>
    ensures { result ≡ stamp_of text.now }
{
    if text.len() < 20 {
        return None;
    }
    let day = day_at(1, 9999, text)?;
    let second = second_at(text)?;
    let micro = stamp_micros_at(text)?;
    Some(joined(day, second, micro))
}

/// The time that a text spells, in microseconds since 1970-01-01T00:00:00Z: `YYYY-MM-DDTHH:MM:SS`,
/// then nothing or a point and one to six digits, then `Z`. The year is one of 1000 to 9000, the
/// calendar has the day, hours end at 23, minutes and seconds at 59. `None` for every other text.
#[tactic(auto, using(crate::proofs::Printed::line_if_some))]
pub fn read_time(text: &[u8]) -> Option<i64>
    ensures value { result ≡ time_of text.now }
    ensures line { IfSome result IsLineTime }
{
    time_in(text)
}

/// The time whose text `time_text` prints so, and `None` where it prints no such text: a fraction
/// stands only where it isn't 0, and then with six digits, and the year is one of 0001 to 9999.
#[tactic(auto, using(crate::proofs::Printed::stamp_if_some))]
pub fn read_stamp(text: &[u8]) -> Option<i64>
    ensures value { result ≡ stamp_of text.now }
    ensures printed { IfSome result (λ t. (text.now ≡ stamp_text t) × IsStampTime t) }
    ensures each { (t : ℤ) → IsStampTime t → text.now ≡ stamp_text t → result ≡ Some t }
{
    stamp_in(text)
}
