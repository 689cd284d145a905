//! Decimal numbers without sign and leading zeros. No digit may follow one.

ghost use Rattle.std.specs.Prelude.{◌≡◌, ℕ, ◌^◌, ◌<◌, ◌≤◌, ◌++◌, length, decimal, IsTrue, IfSome, OnOk, OnErr};
ghost use Rattle.std.specs.List.{prefix_len, list_all};
ghost use Rattle.std.specs.Option.{SomeIff};
ghost use Rattle.ssq_field.specs.Field.{BeginsWith, FindsEach, Fits64};
ghost use Rattle.ssq_field.specs.Decimal.{is_digit, is_plain, NoDigit, number_after};

use crate::bytes::Bytes;
use itoa::Buffer;
use std::alloc::AllocError;

/// Appends the number's digits. An `Err` changes nothing.
pub fn put_decimal(out: &mut Bytes, number: u64) -> Result<(), AllocError>
    ensures ok { OnOk result (out.new ≡ out.old ++ decimal number) }
    ensures err { OnErr result (out.new ≡ out.old) }
{
    out.extend(Buffer::new().format(number).as_bytes())
}

/// Appends the number's digits. An `Err` changes nothing.
pub fn put_decimal_to(out: &mut Vec<u8>, number: u64) -> Result<(), AllocError>
    ensures ok { OnOk result (out.new.items ≡ out.old.items ++ decimal number) }
    ensures err { OnErr result (out.new.items ≡ out.old.items) }
{
    out.extend_from_slice(Buffer::new().format(number).as_bytes())
}

/// The number whose digits stand in front, and how many there are. None where no digit stands in front, where the
/// first of several is 0, or where the number is above 18446744073709551615.
pub fn take_decimal(from: &[u8]) -> Option<(u64, usize)>
    ensures found { IfSome result (λ field. BeginsWith decimal NoDigit from.now field.0 field.1) }
    ensures within { IfSome result (λ field. field.1 ≤ length from.now) }
    ensures each { FindsEach decimal Fits64 NoDigit from.now result }
{
    let len = digits_in_front(from);
    let number = number_of(&from[..len])?;
    Some((number, len))
}

fn digits_in_front(from: &[u8]) -> usize
    ensures { result ≡ prefix_len is_digit from.now }
{
    from.iter().take_while(|byte| byte.is_ascii_digit()).count()
}

/// There are digits, and the first of several is not 0.
fn are_plain(digits: &[u8]) -> bool
    ensures { result ≡ is_plain digits.now }
{
    !matches!(digits, [] | [b'0', _, ..])
}

/// The number that is printed so.
fn number_of(digits: &[u8]) -> Option<u64>
    requires { IsTrue (list_all is_digit digits.now) }
    ensures found { IfSome result (λ number. digits.now ≡ decimal number) }
    ensures each { (number : ℕ) → number < 2 ^ 64 → digits.now ≡ decimal number → result ≡ Some number }
{
    if are_plain(digits) {
        value_of(digits)
    } else {
        None
    }
}

/// What the digits stand for, where that is a number of 64 bits.
fn value_of(digits: &[u8]) -> Option<u64>
    requires { IsTrue (list_all is_digit digits.now) }
    ensures { SomeIff result (number_after 0 digits.now < 2 ^ 64) (number_after 0 digits.now) }
{
    let mut number: u64 = 0;
    for digit in digits {
        number = number
            .checked_mul(10)?
            .checked_add(u64::from(*digit - b'0'))?;
    }
    Some(number)
}
