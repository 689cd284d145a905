//! Reads the texts of spans.
ghost use Rattle.std.specs.Prelude.{◌≡◌, ℕ, ◌+◌, ◌*◌, ◌≤◌, ◌<◌, ◌==◌, pos, length, position, IfSome};
ghost use Rattle.ssq_time.specs.Time.{at_most_longest, digits_after, number_of, unit_of, span_with, span_from, span_of, IsSpan};

use crate::digits::digit;

/// The seconds of 366 days, the longest span.
const MOST: u32 = 366 * 86_400;

/// The number that the digits spell, where it is no greater than the seconds of the longest span.
#[tactic(auto, using(crate::proofs::Spans::digit_steps))]
fn number_from(digits: &[u8]) -> Option<u32>
    ensures value { result ≡ at_most_longest (digits_after 0 digits.now) }
    ensures bound { IfSome result (λ n. n ≤ 31622400) }
{
    let mut value = 0;
    for byte in digits {
        let digit = digit(*byte)?;
        value = 10 * value + digit as u32;
        if value > MOST {
            return None;
        }
    }
    Some(value)
}

/// The same without leading zeros.
#[tactic(auto, unfolding(crate::specs::Time::number_of, crate::specs::Time::at_most_longest))]
fn number(digits: &[u8]) -> Option<u32>
    ensures value { result ≡ at_most_longest (number_of digits.now) }
    ensures bound { IfSome result (λ n. n ≤ 31622400) }
{
    if digits.len() == 0 || digits[0] == b'0' {
        None
    } else {
        number_from(digits)
    }
}

/// The seconds of a unit of time.
#[tactic(auto, unfolding(crate::specs::Time::unit_of))]
fn unit(word: &[u8]) -> Option<u32>
    ensures value { result ≡ unit_of word.now }
    ensures bound { IfSome result (λ n. (1 ≤ n) × (n ≤ 86400)) }
{
    if word == b"second".as_slice() || word == b"seconds".as_slice() {
        Some(1)
    } else if word == b"minute".as_slice() || word == b"minutes".as_slice() {
        Some(60)
    } else if word == b"hour".as_slice() || word == b"hours".as_slice() {
        Some(3600)
    } else if word == b"day".as_slice() || word == b"days".as_slice() {
        Some(86_400)
    } else {
        None
    }
}

/// The span of that many seconds.
#[tactic(auto, unfolding(crate::specs::Time::span_from))]
fn span_of_seconds(seconds: u64) -> Option<i64>
    ensures value { result ≡ span_from seconds }
    ensures span { IfSome result IsSpan }
{
    if 1 <= seconds && seconds <= MOST as u64 {
        Some((1_000_000 * seconds) as i64)
    } else {
        None
    }
}

/// The span of a number of units, each as a text.
#[tactic(auto, unfolding(crate::specs::Time::span_with))]
fn span_of_parts(digits: &[u8], word: &[u8]) -> Option<i64>
    ensures value { result ≡ span_with (at_most_longest (number_of digits.now)) (unit_of word.now) }
    ensures span { IfSome result IsSpan }
{
    let number = number(digits)?;
    let unit = unit(word)?;
    span_of_seconds(number as u64 * unit as u64)
}

/// The place of the first space.
fn first_space(text: &[u8]) -> Option<usize>
    ensures value { result ≡ position (λ byte. byte == 32) text.now }
    ensures bound { IfSome result (λ at. at < length text.now) }
{
    text.iter().position(|byte| *byte == b' ')
}

/// The span that a text spells, in microseconds: a number without leading zeros, one space, and
/// `second`, `minute`, `hour` or `day`, each with or without `s`. It is 1 second to 366 days long.
/// `None` for every other text.
#[tactic(auto, unfolding(crate::specs::Time::span_of), using(crate::proofs::Spans::span_with_longest))]
pub fn read_span(text: &[u8]) -> Option<i64>
    ensures value { result ≡ span_of text.now }
    ensures span { IfSome result IsSpan }
{
    let space = first_space(text)?;
    span_of_parts(&text[..space], &text[space + 1..])
}
