//! Digits at known places of a text.
ghost use Rattle.std.specs.Prelude.{◌≡◌, ◌+◌, ◌<◌, ◌≤◌, length, slice_index, IfSome};
ghost use Rattle.ssq_time.specs.Time.{digit_of, two_at, decimal_at};

/// The value of a digit.
#[tactic(auto, unfolding(crate::specs::Time::digit_of))]
#[inline(always)]
pub(crate) fn digit(byte: u8) -> Option<u8>
    ensures value { result ≡ digit_of byte }
    ensures bound { IfSome result (λ d. d ≤ 9) }
{
    match byte {
        b'0'..=b'9' => Some(byte - b'0'),
        _ => None,
    }
}

/// The number that two digits spell.
#[tactic(auto, unfolding(crate::specs::Time::two_at))]
#[inline(always)]
pub(crate) fn two(text: &[u8], at: usize) -> Option<u8>
    requires { at + 1 < length text.now }
    ensures value { result ≡ two_at text.now at }
    ensures bound { IfSome result (λ n. n ≤ 99) }
{
    let tens = digit(text[at])?;
    let units = digit(text[at + 1])?;
    Some(10 * tens + units)
}

/// The digit at that place after the point, where `written` digits stand: the others are 0.
#[tactic(auto, unfolding(crate::specs::Time::decimal_at))]
#[inline(always)]
pub(crate) fn decimal(text: &[u8], written: usize, at: usize) -> Option<u8>
    requires { 20 + written ≤ length text.now }
    ensures value { result ≡ decimal_at text.now written at }
    ensures bound { IfSome result (λ d. d ≤ 9) }
{
    if at < written {
        digit(text[20 + at])
    } else {
        Some(0)
    }
}
