//! A value in front of bytes.

ghost use Rattle.std.specs.Prelude.{◌≡◌, ◌<◌, ◌≤◌, ◌^◌, ◌∷◌, ◌++◌, ℕ, ℤ, List, Bool, length, if◌then◌else◌, FitsSigned, IfOk, IfSome, IsSomeAnd};
ghost use Rattle.std.specs.Int.{w32, w64, to_be_bytes};
ghost use Rattle.std.specs.Str.{IsUtf8};
ghost use Rattle.ssq_time.specs.Time.{IsStampTime};
ghost use Rattle.ssq_value.specs.declared.value.Value.{Value as Cell};
ghost use Rattle.ssq_value.specs.Key.{raised, key_of};
ghost use Rattle.ssq_shape.specs.Evaluation.{longest, time_in};
ghost use Rattle.ssq_shape.specs.Fit.{IsFit};
ghost use Rattle.ssq_keys.specs.Spelled.{value_of};

use ssq_field::{take_be32, take_be64};
use ssq_time::is_stamp_time;
use ssq_value::{Text, Value};
use std::alloc::{AllocError, Global};
use std::str;

/// The number that is so much less 2^63.
fn with_sign(number: u64) -> i64
    ensures { raised result ≡ number }
{
    number.wrapping_add(1 << 63).cast_signed()
}

/// The truth value in the first byte, and what follows it.
fn truth_and_rest(bytes: &[u8]) -> Option<(bool, &[u8])>
    ensures found { IfSome result (λ parts. bytes.now ≡ (if parts.0 then 1 else 0) ∷ parts.1.now) }
    ensures each { (truth : Bool) (rest : List ℕ) → bytes.now ≡ (if truth then 1 else 0) ∷ rest →
        IsSomeAnd result (λ parts. (parts.0 ≡ truth) × (parts.1.now ≡ rest)) }
{
    let (byte, rest) = bytes.split_first()?;
    match *byte {
        0 => Some((false, rest)),
        1 => Some((true, rest)),
        _ => None,
    }
}

/// The number in the first eight bytes, and what follows it.
fn number_and_rest(bytes: &[u8]) -> Option<(i64, &[u8])>
    ensures found { IfSome result (λ parts. bytes.now ≡ to_be_bytes w64 (raised parts.0) ++ parts.1.now) }
    ensures each { (number : ℤ) (rest : List ℕ) → FitsSigned w64 number → bytes.now ≡ to_be_bytes w64 (raised number) ++ rest →
        IsSomeAnd result (λ parts. (parts.0 ≡ number) × (parts.1.now ≡ rest)) }
{
    let (number, taken) = take_be64(bytes)?;
    Some((with_sign(number), &bytes[taken..]))
}

/// The time in the first eight bytes, where it is of the years 0001 to 9999, and what follows it.
fn time_and_rest(bytes: &[u8]) -> Option<(i64, &[u8])>
    ensures found { IfSome result (λ parts. bytes.now ≡ to_be_bytes w64 (raised parts.0) ++ parts.1.now) }
    ensures years { IfSome result (λ parts. IsStampTime parts.0) }
    ensures each { (time : ℤ) (rest : List ℕ) → IsStampTime time → bytes.now ≡ to_be_bytes w64 (raised time) ++ rest →
        IsSomeAnd result (λ parts. (parts.0 ≡ time) × (parts.1.now ≡ rest)) }
{
    let (time, rest) = number_and_rest(bytes)?;
    if is_stamp_time(time) {
        Some((time, rest))
    } else {
        None
    }
}

/// So many bytes in front, and what follows them.
fn split(bytes: &[u8], len: usize) -> Option<(&[u8], &[u8])>
    ensures found { IfSome result (λ parts. bytes.now ≡ parts.0.now ++ parts.1.now) }
    ensures many { IfSome result (λ parts. length parts.0.now ≡ len) }
    ensures each { (front rest : List ℕ) → length front ≡ len → bytes.now ≡ front ++ rest →
        IsSomeAnd result (λ parts. (parts.0.now ≡ front) × (parts.1.now ≡ rest)) }
{
    bytes.split_at_checked(len)
}

/// The number in the first four bytes, and what follows it.
fn len_and_rest(bytes: &[u8]) -> Option<(u32, &[u8])>
    ensures found { IfSome result (λ parts. bytes.now ≡ to_be_bytes w32 parts.0 ++ parts.1.now) }
    ensures each { (number : ℕ) (rest : List ℕ) → number < 2 ^ 32 → bytes.now ≡ to_be_bytes w32 number ++ rest →
        IsSomeAnd result (λ parts. (parts.0 ≡ number) × (parts.1.now ≡ rest)) }
{
    let (number, taken) = take_be32(bytes)?;
    Some((number, &bytes[taken..]))
}

/// The most bytes of a text.
const LONGEST: u32 = 1_048_576;

/// The text after its length in four bytes, where it is UTF-8 and no longer than a text may be, and what follows it.
fn text_and_rest(bytes: &[u8]) -> Option<(&str, &[u8])>
    ensures found { IfSome result (λ parts. bytes.now ≡ (to_be_bytes w32 (length parts.0.now) ++ parts.0.now) ++ parts.1.now) }
    ensures short { IfSome result (λ parts. length parts.0.now ≤ longest) }
    ensures utf8 { IfSome result (λ parts. IsUtf8 parts.0.now) }
    ensures each { (text rest : List ℕ) → length text ≤ longest → IsUtf8 text → bytes.now ≡ (to_be_bytes w32 (length text) ++ text) ++ rest →
        IsSomeAnd result (λ parts. (parts.0.now ≡ text) × (parts.1.now ≡ rest)) }
{
    let (len, behind) = len_and_rest(bytes)?;
    if len > LONGEST {
        return None;
    }
    let (text, rest) = split(behind, len as usize)?;
    let text = str::from_utf8(text).ok()?;
    Some((text, rest))
}

/// A value as bytes spell it: its text stands in them.
#[derive(Clone, Copy)]
pub(crate) enum Spelled<'a> {
    Null,
    Truth(bool),
    Int(i64),
    Time(i64),
    Text(&'a str),
}

impl Spelled<'_> {
    /// The value, with a text of its own.
    fn to_value(self, alloc: Global) -> Result<Value, AllocError>
        ensures { IfOk result (λ value. value ≡ value_of self.entry) }
    {
        Ok(match self {
            Spelled::Null => Value::Null,
            Spelled::Truth(truth) => Value::Truth(truth),
            Spelled::Int(number) => Value::Int(number),
            Spelled::Time(time) => Value::Time(time),
            Spelled::Text(text) => Value::Text(Text::from_str(alloc, text)?),
        })
    }

    /// The time, where it is one, in microseconds since 1970.
    pub(crate) fn time(self) -> Option<i64>
        ensures { result ≡ time_in (value_of self.entry) }
    {
        match self {
            Spelled::Time(time) => Some(time),
            _ => None,
        }
    }
}

/// The value that the bytes in front spell, and what follows them. None where they spell none that a state can hold: a time is of the
/// years 0001 to 9999, and a text is UTF-8 of at most 1,048,576 bytes.
pub(crate) fn spelled_and_rest(bytes: &[u8]) -> Option<(Spelled<'_>, &[u8])>
    ensures found { IfSome result (λ parts. bytes.now ≡ key_of (value_of parts.0) ++ parts.1.now) }
    ensures fit { IfSome result (λ parts. IsFit (value_of parts.0)) }
    ensures each { (value : Cell) (rest : List ℕ) → IsFit value → bytes.now ≡ key_of value ++ rest →
        IsSomeAnd result (λ parts. (value_of parts.0 ≡ value) × (parts.1.now ≡ rest)) }
{
    let (kind, behind) = bytes.split_first()?;
    match *kind {
        0 => Some((Spelled::Null, behind)),
        1 => {
            let (truth, rest) = truth_and_rest(behind)?;
            Some((Spelled::Truth(truth), rest))
        }
        2 => {
            let (number, rest) = number_and_rest(behind)?;
            Some((Spelled::Int(number), rest))
        }
        3 => {
            let (time, rest) = time_and_rest(behind)?;
            Some((Spelled::Time(time), rest))
        }
        4 => {
            let (text, rest) = text_and_rest(behind)?;
            Some((Spelled::Text(text), rest))
        }
        _ => None,
    }
}

/// The value that the bytes in front spell, with a text of its own, and what follows them. None where they spell none that a state can hold.
pub fn value_and_rest(alloc: Global, bytes: &[u8]) -> Result<Option<(Value, &[u8])>, AllocError>
    ensures found { IfOk result (λ found. IfSome found (λ parts. bytes.now ≡ key_of parts.0 ++ parts.1.now)) }
    ensures fit { IfOk result (λ found. IfSome found (λ parts. IsFit parts.0)) }
    ensures each { (value : Cell) (rest : List ℕ) → IsFit value → bytes.now ≡ key_of value ++ rest →
        IfOk result (λ found. IsSomeAnd found (λ parts. (parts.0 ≡ value) × (parts.1.now ≡ rest))) }
{
    match spelled_and_rest(bytes) {
        Some((spelled, rest)) => Ok(Some((spelled.to_value(alloc)?, rest))),
        None => Ok(None),
    }
}
