//! What the lines of names and of records are made of.
ghost use Rattle.std.specs.Prelude.{◌≡◌, ◌≢◌, ◌<◌, ◌^◌, ◌++◌, ℕ, ℤ, List, Option, IfSome, IsSomeAnd, IsTrue, MatchOption, codes, decimal, length};
ghost use Rattle.std.specs.Option.{ForSome};
ghost use Rattle.ssq_field.specs.Decimal.{NoDigit};
ghost use Rattle.ssq_time.specs.Time.{IsStampTime, stamp_text};
ghost use Rattle.ssq_plans.specs.Records.{time_or_none};

use ssq_field::take_decimal;
use ssq_time::read_stamp;

/// What follows these bytes in front.
pub(crate) fn after<'a>(text: &'a [u8], front: &[u8]) -> Option<&'a [u8]>
    ensures { MatchOption result ((rest : List ℕ) → text.now ≢ front.now ++ rest) (λ rest. text.now ≡ front.now ++ rest.now) }
{
    text.strip_prefix(front)
}

/// So many bytes in front, and what follows them.
pub(crate) fn split(text: &[u8], len: usize) -> Option<(&[u8], &[u8])>
    ensures found { IfSome result (λ parts. text.now ≡ parts.0.now ++ parts.1.now) }
    ensures many { IfSome result (λ parts. length parts.0.now ≡ len) }
    ensures each { (front rest : List ℕ) → length front ≡ len → text.now ≡ front ++ rest →
        IsSomeAnd result (λ parts. (parts.0.now ≡ front) × (parts.1.now ≡ rest)) }
{
    text.split_at_checked(len)
}

/// The number in front, and what follows its digits.
fn number_and_rest(text: &[u8]) -> Option<(u64, &[u8])>
    ensures found { IfSome result (λ parts. text.now ≡ decimal parts.0 ++ parts.1.now) }
    ensures each { (n : ℕ) (rest : List ℕ) → n < 2 ^ 64 → NoDigit rest → text.now ≡ decimal n ++ rest →
        IsSomeAnd result (λ parts. (parts.0 ≡ n) × (parts.1.now ≡ rest)) }
{
    let (number, taken) = take_decimal(text)?;
    Some((number, &text[taken..]))
}

/// The number after these bytes in front, and what follows its digits.
pub(crate) fn long_after<'a>(text: &'a [u8], front: &[u8]) -> Option<(u64, &'a [u8])>
    ensures found { IfSome result (λ parts. text.now ≡ front.now ++ (decimal parts.0 ++ parts.1.now)) }
    ensures each { (n : ℕ) (rest : List ℕ) → n < 2 ^ 64 → NoDigit rest → text.now ≡ front.now ++ (decimal n ++ rest) →
        IsSomeAnd result (λ parts. (parts.0 ≡ n) × (parts.1.now ≡ rest)) }
{
    number_and_rest(after(text, front)?)
}

/// The number of 32 bits after these bytes in front, and what follows its digits.
pub(crate) fn short_after<'a>(text: &'a [u8], front: &[u8]) -> Option<(u32, &'a [u8])>
    ensures found { IfSome result (λ parts. text.now ≡ front.now ++ (decimal parts.0 ++ parts.1.now)) }
    ensures each { (n : ℕ) (rest : List ℕ) → n < 2 ^ 32 → NoDigit rest → text.now ≡ front.now ++ (decimal n ++ rest) →
        IsSomeAnd result (λ parts. (parts.0 ≡ n) × (parts.1.now ≡ rest)) }
{
    let (number, rest) = long_after(text, front)?;
    match u32::try_from(number) {
        Ok(number) => Some((number, rest)),
        Err(_) => None,
    }
}

/// The number that is the rest of a line after these bytes in front, and what follows that line.
pub(crate) fn long_line_after<'a>(text: &'a [u8], front: &[u8]) -> Option<(u64, &'a [u8])>
    ensures found { IfSome result (λ parts. text.now ≡ front.now ++ (decimal parts.0 ++ (codes "\n" ++ parts.1.now))) }
    ensures each { (n : ℕ) (rest : List ℕ) → n < 2 ^ 64 → text.now ≡ front.now ++ (decimal n ++ (codes "\n" ++ rest)) →
        IsSomeAnd result (λ parts. (parts.0 ≡ n) × (parts.1.now ≡ rest)) }
{
    let (number, behind) = long_after(text, front)?;
    let rest = after(behind, b"\n")?;
    Some((number, rest))
}

/// The number of 32 bits that is the rest of a line after these bytes in front, and what follows that line.
pub(crate) fn short_line_after<'a>(text: &'a [u8], front: &[u8]) -> Option<(u32, &'a [u8])>
    ensures found { IfSome result (λ parts. text.now ≡ front.now ++ (decimal parts.0 ++ (codes "\n" ++ parts.1.now))) }
    ensures each { (n : ℕ) (rest : List ℕ) → n < 2 ^ 32 → text.now ≡ front.now ++ (decimal n ++ (codes "\n" ++ rest)) →
        IsSomeAnd result (λ parts. (parts.0 ≡ n) × (parts.1.now ≡ rest)) }
{
    let (number, behind) = short_after(text, front)?;
    let rest = after(behind, b"\n")?;
    Some((number, rest))
}

/// Whether these bytes are all.
pub(crate) fn is_all(text: &[u8], all: &[u8]) -> bool
    ensures only { IsTrue result → text.now ≡ all.now }
    ensures each { text.now ≡ all.now → IsTrue result }
{
    text == all
}

/// How long the text of a time is that stands in front.
fn stamp_len(text: &[u8]) -> usize
    ensures { (t : ℤ) (rest : List ℕ) → text.now ≡ stamp_text t ++ rest → length (stamp_text t) ≡ result }
{
    if text.len() > 19 && text[19] == b'Z' {
        20
    } else {
        27
    }
}

/// The time whose text stands in front, and what follows it.
fn stamp_and_rest(text: &[u8]) -> Option<(i64, &[u8])>
    ensures found { IfSome result (λ parts. text.now ≡ stamp_text parts.0 ++ parts.1.now) }
    ensures in_range { IfSome result (λ parts. IsStampTime parts.0) }
    ensures each { (t : ℤ) (rest : List ℕ) → IsStampTime t → text.now ≡ stamp_text t ++ rest →
        IsSomeAnd result (λ parts. (parts.0 ≡ t) × (parts.1.now ≡ rest)) }
{
    let (stamp, rest) = split(text, stamp_len(text))?;
    let time = read_stamp(stamp)?;
    Some((time, rest))
}

/// The time or `none` that is the rest of a line after these bytes in front, and what follows that line.
pub(crate) fn time_line_after<'a>(text: &'a [u8], front: &[u8]) -> Option<(Option<i64>, &'a [u8])>
    ensures found { IfSome result (λ parts. text.now ≡ front.now ++ (time_or_none parts.0 ++ (codes "\n" ++ parts.1.now))) }
    ensures in_range { IfSome result (λ parts. ForSome parts.0 IsStampTime) }
    ensures each { (time : Option ℤ) (rest : List ℕ) → ForSome time IsStampTime →
        text.now ≡ front.now ++ (time_or_none time ++ (codes "\n" ++ rest)) →
        IsSomeAnd result (λ parts. (parts.0 ≡ time) × (parts.1.now ≡ rest)) }
{
    let text = after(text, front)?;
    if let Some(rest) = after(text, b"none\n") {
        return Some((None, rest));
    }
    let (time, text) = stamp_and_rest(text)?;
    let text = after(text, b"\n")?;
    Some((Some(time), text))
}
