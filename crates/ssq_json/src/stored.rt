//! Rows read back from a file that holds them, each from its own line.

ghost use Rattle.std.specs.Prelude.{◌≡◌, ◌≢◌, ◌<◌, ◌≤◌, ◌^◌, ◌++◌, ◌∷◌, ◌==◌, [], List, ℕ, ℤ, pos, negsuc, length, slice_index, option_map, FitsSigned, IfOk, IfSome, IsSomeAnd};
ghost use Rattle.std.specs.Int.{w64};
ghost use Rattle.std.specs.Fmt.{signed_decimal};
ghost use Rattle.std.specs.Str.{IsUtf8};
ghost use Rattle.json.specs.Print.{escape, quoted};
ghost use Rattle.ssq_field.specs.Decimal.{NoDigit};
ghost use Rattle.ssq_time.specs.Time.{IsStampTime, stamp_text};
ghost use Rattle.ssq_value.specs.declared.value.Value.{Value as Cell};
ghost use Rattle.ssq_value.specs.declared.column.ColType.TheVariants.{Bigint, Str, Timestamp, Bool as Boolean};
ghost use Rattle.ssq_value.specs.declared.value.Value.TheVariants.{Null as NullOf};
ghost use Rattle.ssq_json.specs.RowText.{heads_of, members_text, value_text};
ghost use Rattle.ssq_json.specs.Stored.{AreStoredIn, IsStoredIn, line_of};
ghost use Rattle.ssq_json.specs.Unescaped.{byte_at, control, control_at, escaped_at, short_for};

use crate::flat::take_quoted;
use crate::heads::{Head, Heads};
use crate::written::put_text;
use ssq_field::take_decimal;
use ssq_time::read_stamp;
use ssq_value::{ColType, Row, Text, Value};
use std::alloc::{AllocError, Global};
use std::str;

/// What follows the bytes, where the text begins with them.
#[inline(always)]
fn behind<'a>(text: &'a [u8], front: &[u8]) -> Option<&'a [u8]>
    ensures found { IfSome result (λ rest. text.now ≡ front.now ++ rest.now) }
    ensures each { (rest : List ℕ) → text.now ≡ front.now ++ rest → IsSomeAnd result (λ found. found.now ≡ rest) }
{
    text.strip_prefix(front)
}

/// The byte that a letter after a backslash is short for.
#[tactic(auto, unfolding(crate::specs::Unescaped::short_for))]
fn short_for(letter: u8) -> u8
    ensures { result ≡ short_for letter }
{
    if letter == b'b' {
        8
    } else if letter == b't' {
        9
    } else if letter == b'n' {
        10
    } else if letter == b'f' {
        12
    } else if letter == b'r' {
        13
    } else {
        letter
    }
}

/// The byte below 32 whose last two hexadecimal digits these are.
#[tactic(auto, unfolding(crate::specs::Unescaped::control))]
fn control(high: u8, low: u8) -> u8
    ensures { result ≡ control high low }
{
    let sixteens = if high == b'1' { 16 } else { 0 };
    let units = if low < b'a' {
        low.saturating_sub(b'0')
    } else {
        low - 87
    };
    sixteens + units
}

/// The byte after `\u`, of which two digits are passed over, and what follows.
#[tactic(auto, unfolding(crate::specs::Unescaped::control_at))]
fn take_control(text: &[u8]) -> Option<(u8, &[u8])>
    ensures byte { option_map (λ r. (r.0, r.1.now)) result ≡ control_at text.now }
    ensures shorter { IfSome result (λ r. length r.1.now < length text.now) }
{
    match text {
        [_, _, high, low, rest @ ..] => Some((control(*high, *low), rest)),
        _ => None,
    }
}

/// The byte after a backslash, and what follows.
#[tactic(auto, unfolding(crate::specs::Unescaped::escaped_at))]
#[inline(never)]
fn take_escaped_byte(text: &[u8]) -> Option<(u8, &[u8])>
    ensures byte { option_map (λ r. (r.0, r.1.now)) result ≡ escaped_at text.now }
    ensures shorter { IfSome result (λ r. length r.1.now < length text.now) }
{
    match text.split_first() {
        Some((b'u', digits)) => take_control(digits),
        Some((letter, rest)) => Some((short_for(*letter), rest)),
        None => None,
    }
}

/// The first byte of a text as a quoted text has it, and what follows. None at a quote.
#[tactic(auto, unfolding(crate::specs::Unescaped::byte_at))]
#[inline(always)]
fn take_byte(text: &[u8]) -> Option<(u8, &[u8])>
    ensures byte { option_map (λ r. (r.0, r.1.now)) result ≡ byte_at text.now }
    ensures shorter { IfSome result (λ r. length r.1.now < length text.now) }
{
    match text.split_first() {
        Some((b'"', _)) => None,
        Some((b'\\', rest)) => take_escaped_byte(rest),
        Some((first, rest)) => Some((*first, rest)),
        None => None,
    }
}

/// The bytes of a quoted text, whose first quote was taken: those of `bytes`, where it is theirs.
fn unescaped(alloc: Global, text: &[u8]) -> Result<Vec<u8>, AllocError>
    ensures { (bytes rest : List ℕ) → text.now ≡ escape bytes ++ 34 ∷ rest → IfOk result (λ read. read.items ≡ bytes) }
{
    let mut bytes = Vec::new(alloc);
    let mut left = text;
    while let Some((byte, after)) = take_byte(left) {
        bytes.push(byte)?;
        left = after;
    }
    Ok(bytes)
}

/// The text whose quoted form stands in front, and what follows. What was read is quoted again and compared, so that each text has one form.
#[inline(never)]
fn take_escaped(alloc: Global, text: &[u8]) -> Result<Option<(Text, &[u8])>, AllocError>
    ensures found { IfOk result (λ read. IfSome read (λ r. (text.now ≡ quoted r.0 ++ r.1.now) × IsUtf8 r.0)) }
    ensures each { (read rest : List ℕ) → IsUtf8 read → text.now ≡ quoted read ++ rest →
        IfOk result (λ found. IsSomeAnd found (λ r. (r.0 ≡ read) × (r.1.now ≡ rest))) }
{
    let Some(inside) = behind(text, b"\"") else {
        return Ok(None);
    };
    let bytes = unescaped(alloc, inside)?;
    let Ok(read) = String::from_utf8(bytes) else {
        return Ok(None);
    };
    let mut quoted = Vec::new(alloc);
    put_text(&mut quoted, &read)?;
    match behind(text, quoted.as_slice()) {
        Some(rest) => Ok(Some((Text::from_string(read), rest))),
        None => Ok(None),
    }
}

/// The text whose quoted form stands in front, and what follows.
fn take_text(alloc: Global, text: &[u8]) -> Result<Option<(Text, &[u8])>, AllocError>
    ensures found { IfOk result (λ read. IfSome read (λ r. (text.now ≡ quoted r.0 ++ r.1.now) × IsUtf8 r.0)) }
    ensures each { (read rest : List ℕ) → IsUtf8 read → text.now ≡ quoted read ++ rest →
        IfOk result (λ found. IsSomeAnd found (λ r. (r.0 ≡ read) × (r.1.now ≡ rest))) }
{
    let Some((inside, rest)) = take_quoted(text) else {
        return take_escaped(alloc, text);
    };
    match str::from_utf8(inside) {
        Ok(inside) => Ok(Some((Text::from_str(alloc, inside)?, rest))),
        Err(_) => Ok(None),
    }
}

/// Whether a point stands where it stands in the text of a time.
#[inline(always)]
fn has_point(text: &[u8]) -> bool
    ensures { result ≡ (slice_index text.now 19 == 46) }
{
    text.len() > 19 && text[19] == b'.'
}

/// How long the text of a time is that a text begins with.
#[inline(always)]
fn stamp_len(text: &[u8]) -> usize
    ensures { (time : ℤ) (rest : List ℕ) → text.now ≡ stamp_text time ++ rest → result ≡ length (stamp_text time) }
{
    if has_point(text) { 27 } else { 20 }
}

/// The time whose text stands in front, and what follows.
fn take_time(text: &[u8]) -> Option<(i64, &[u8])>
    ensures found { IfSome result (λ r. (text.now ≡ stamp_text r.0 ++ r.1.now) × IsStampTime r.0) }
    ensures each { (time : ℤ) (rest : List ℕ) → IsStampTime time → text.now ≡ stamp_text time ++ rest → IsSomeAnd result (λ r. (r.0 ≡ time) × (r.1.now ≡ rest)) }
{
    let len = stamp_len(text);
    if text.len() < len {
        return None;
    }
    let (stamp, rest) = text.split_at(len);
    let time = read_stamp(stamp)?;
    Some((time, rest))
}

/// The time whose text stands in front in quotes, and what follows.
fn take_stamp(text: &[u8]) -> Option<(i64, &[u8])>
    ensures found { IfSome result
        (λ r. (text.now ≡ (34 ∷ (stamp_text r.0 ++ 34 ∷ [])) ++ r.1.now) × IsStampTime r.0) }
    ensures each { (time : ℤ) (rest : List ℕ) → IsStampTime time → text.now ≡ (34 ∷ (stamp_text time ++ 34 ∷ [])) ++ rest →
        IsSomeAnd result (λ r. (r.0 ≡ time) × (r.1.now ≡ rest)) }
{
    let inside = behind(text, b"\"")?;
    let (time, after) = take_time(inside)?;
    let rest = behind(after, b"\"")?;
    Some((time, rest))
}

/// The number of 64 bits whose digits stand in front, and what follows.
fn take_positive(text: &[u8]) -> Option<(i64, &[u8])>
    ensures found { IfSome result
        (λ r. (text.now ≡ signed_decimal r.0 ++ r.1.now) × FitsSigned w64 r.0) }
    ensures each { (number : ℕ) (rest : List ℕ) → number < 2 ^ 63 → NoDigit rest → text.now ≡ signed_decimal (pos number) ++ rest →
        IsSomeAnd result (λ r. (r.0 ≡ pos number) × (r.1.now ≡ rest)) }
{
    let (number, len) = take_decimal(text)?;
    if number <= i64::MAX as u64 {
        Some((number as i64, &text[len..]))
    } else {
        None
    }
}

/// The same of a number below 0 whose minus was taken.
fn take_negative(text: &[u8]) -> Option<(i64, &[u8])>
    ensures found { IfSome result
        (λ r. (45 ∷ text.now ≡ signed_decimal r.0 ++ r.1.now) × FitsSigned w64 r.0) }
    ensures each { (number : ℕ) (rest : List ℕ) → number < 2 ^ 63 → NoDigit rest → 45 ∷ text.now ≡ signed_decimal (negsuc number) ++ rest →
        IsSomeAnd result (λ r. (r.0 ≡ negsuc number) × (r.1.now ≡ rest)) }
{
    let (size, len) = take_decimal(text)?;
    if 1 <= size && size <= 1 << 63 {
        Some((-1 - (size - 1) as i64, &text[len..]))
    } else {
        None
    }
}

/// The number that stands in front, and what follows. No digit follows it.
fn take_number(text: &[u8]) -> Option<(i64, &[u8])>
    ensures found { IfSome result
        (λ r. (text.now ≡ signed_decimal r.0 ++ r.1.now) × FitsSigned w64 r.0) }
    ensures each { (number : ℤ) (rest : List ℕ) → FitsSigned w64 number → NoDigit rest → text.now ≡ signed_decimal number ++ rest →
        IsSomeAnd result (λ r. (r.0 ≡ number) × (r.1.now ≡ rest)) }
{
    match behind(text, b"-") {
        Some(digits) => take_negative(digits),
        None => take_positive(text),
    }
}

/// The number that stands in front as a value, and what follows, which begins with no digit.
#[tactic(auto, unfolding(crate::specs::RowText::value_text))]
fn take_int(text: &[u8]) -> Option<(Value, &[u8])>
    ensures found { IfSome result (λ r. (text.now ≡ value_text r.0 ++ r.1.now) × IsStoredIn Bigint r.0) }
    ensures each { (value : Cell) (rest : List ℕ) → value ≢ NullOf → IsStoredIn Bigint value → NoDigit rest → text.now ≡ value_text value ++ rest →
        IsSomeAnd result (λ r. (r.0 ≡ value) × (r.1.now ≡ rest)) }
{
    let (number, rest) = take_number(text)?;
    Some((Value::Int(number), rest))
}

/// The truth value that stands in front, and what follows.
#[tactic(auto, unfolding(crate::specs::RowText::value_text))]
fn take_truth(text: &[u8]) -> Option<(Value, &[u8])>
    ensures found { IfSome result (λ r. (text.now ≡ value_text r.0 ++ r.1.now) × IsStoredIn Boolean r.0) }
    ensures each { (value : Cell) (rest : List ℕ) → value ≢ NullOf → IsStoredIn Boolean value → text.now ≡ value_text value ++ rest →
        IsSomeAnd result (λ r. (r.0 ≡ value) × (r.1.now ≡ rest)) }
{
    match behind(text, b"true") {
        Some(rest) => Some((Value::Truth(true), rest)),
        None => {
            let rest = behind(text, b"false")?;
            Some((Value::Truth(false), rest))
        }
    }
}

/// The time that stands in front in quotes as a value, and what follows.
#[tactic(auto, unfolding(crate::specs::RowText::value_text))]
fn take_moment(text: &[u8]) -> Option<(Value, &[u8])>
    ensures found { IfSome result (λ r. (text.now ≡ value_text r.0 ++ r.1.now) × IsStoredIn Timestamp r.0) }
    ensures each { (value : Cell) (rest : List ℕ) → value ≢ NullOf → IsStoredIn Timestamp value → text.now ≡ value_text value ++ rest →
        IsSomeAnd result (λ r. (r.0 ≡ value) × (r.1.now ≡ rest)) }
{
    let (time, rest) = take_stamp(text)?;
    Some((Value::Time(time), rest))
}

/// The quoted text that stands in front as a value, and what follows.
#[tactic(auto, unfolding(crate::specs::RowText::value_text))]
fn take_string(alloc: Global, text: &[u8]) -> Result<Option<(Value, &[u8])>, AllocError>
    ensures found { IfOk result (λ read. IfSome read (λ r. (text.now ≡ value_text r.0 ++ r.1.now) × IsStoredIn Str r.0)) }
    ensures each { (value : Cell) (rest : List ℕ) → value ≢ NullOf → IsStoredIn Str value → text.now ≡ value_text value ++ rest →
        IfOk result (λ read. IsSomeAnd read (λ r. (r.0 ≡ value) × (r.1.now ≡ rest))) }
{
    match take_text(alloc, text)? {
        Some((read, rest)) => Ok(Some((Value::Text(read), rest))),
        None => Ok(None),
    }
}

/// The value of a column of this type, not NULL, whose text stands in front, and what follows.
fn take_held(
    alloc: Global,
    kind: ColType,
    text: &[u8],
) -> Result<Option<(Value, &[u8])>, AllocError>
    ensures found { IfOk result (λ read. IfSome read
        (λ r. (text.now ≡ value_text r.0 ++ r.1.now) × IsStoredIn kind r.0)) }
    ensures each { (value : Cell) (rest : List ℕ) → value ≢ NullOf → IsStoredIn kind value → NoDigit rest → text.now ≡ value_text value ++ rest →
        IfOk result (λ read. IsSomeAnd read (λ r. (r.0 ≡ value) × (r.1.now ≡ rest))) }
{
    match kind {
        ColType::Bigint => Ok(take_int(text)),
        ColType::Bool => Ok(take_truth(text)),
        ColType::Timestamp => Ok(take_moment(text)),
        ColType::Str => take_string(alloc, text),
    }
}

/// The value of a column of this type whose text stands in front, and what follows, which begins with no digit.
#[tactic(auto, unfolding(crate::specs::RowText::value_text))]
fn take_value(
    alloc: Global,
    kind: ColType,
    text: &[u8],
) -> Result<Option<(Value, &[u8])>, AllocError>
    ensures found { IfOk result (λ read. IfSome read
        (λ r. (text.now ≡ value_text r.0 ++ r.1.now) × IsStoredIn kind r.0)) }
    ensures each { (value : Cell) (rest : List ℕ) → IsStoredIn kind value → NoDigit rest → text.now ≡ value_text value ++ rest →
        IfOk result (λ read. IsSomeAnd read (λ r. (r.0 ≡ value) × (r.1.now ≡ rest))) }
{
    match behind(text, b"null") {
        Some(rest) => Ok(Some((Value::Null, rest))),
        None => take_held(alloc, kind, text),
    }
}

/// The value of a column after its head.
fn take_member<'a>(
    alloc: Global,
    head: &Head,
    kind: ColType,
    text: &'a [u8],
) -> Result<Option<(Value, &'a [u8])>, AllocError>
    ensures found { IfOk result (λ read. IfSome read
        (λ r. (text.now ≡ head.now ++ (value_text r.0 ++ r.1.now)) × IsStoredIn kind r.0)) }
    ensures each { (value : Cell) (rest : List ℕ) → IsStoredIn kind value → NoDigit rest → text.now ≡ head.now ++ (value_text value ++ rest) →
        IfOk result (λ read. IsSomeAnd read (λ r. (r.0 ≡ value) × (r.1.now ≡ rest))) }
{
    match behind(text, head.as_bytes()) {
        Some(at_value) => take_value(alloc, kind, at_value),
        None => Ok(None),
    }
}

/// The values of these columns whose members stand in front, and what follows, which begins with a brace.
fn take_members<'a>(
    alloc: Global,
    heads: &[Head],
    kinds: &[ColType],
    text: &'a [u8],
) -> Result<Option<(Vec<Value>, &'a [u8])>, AllocError>
    requires { length heads.now ≡ length kinds.now }
    ensures found { IfOk result (λ read. IfSome read
        (λ r. (text.now ≡ members_text heads.now r.0.items ++ r.1.now) × AreStoredIn kinds.now r.0.items)) }
    ensures each { (names : List (List ℕ)) → heads.now ≡ heads_of names → (row : List Cell) (rest : List ℕ) → AreStoredIn kinds.now row → text.now ≡ members_text heads.now row ++ 125 ∷ rest →
        IfOk result (λ read. IsSomeAnd read (λ r. (r.0.items ≡ row) × (r.1.now ≡ 125 ∷ rest))) }
{
    let mut values = Vec::with_capacity(alloc, kinds.len())?;
    let mut rest = text;
    for (head, kind) in heads.iter().zip(kinds) {
        match take_member(alloc, head, *kind, rest)? {
            Some((value, after)) => {
                values.push(value)?;
                rest = after;
            }
            None => return Ok(None),
        }
    }
    Ok(Some((values, rest)))
}

/// The row of columns with these heads and types whose line stands in front, and what follows that. `None` where no front of the
/// bytes is such a line. The row's texts, numbers and times are those that its line spells.
#[tactic(auto, unfolding(crate::specs::RowText::row_text))]
pub fn take_line<'a>(
    alloc: Global,
    heads: &Heads,
    kinds: &[ColType],
    bytes: &'a [u8],
) -> Result<Option<(Row, &'a [u8])>, AllocError>
    requires { length heads.now ≡ length kinds.now }
    ensures found { (names : List (List ℕ)) → heads.now ≡ heads_of names → IfOk result (λ read. IfSome read
        (λ r. (bytes.now ≡ line_of names r.0 ++ r.1.now) × AreStoredIn kinds.now r.0)) }
    ensures each { (names : List (List ℕ)) → heads.now ≡ heads_of names → (row : List Cell) (rest : List ℕ) → AreStoredIn kinds.now row → bytes.now ≡ line_of names row ++ rest →
        IfOk result (λ read. IsSomeAnd read (λ r. (r.0 ≡ row) × (r.1.now ≡ rest))) }
    ensures stored { IfOk result (λ read. IfSome read (λ r. AreStoredIn kinds.now r.0)) }
    ensures shorter { IfOk result (λ read. IfSome read (λ r. length r.1.now < length bytes.now)) }
{
    let Some(members) = behind(bytes, b"{") else {
        return Ok(None);
    };
    match take_members(alloc, heads.as_slice(), kinds, members)? {
        Some((values, after)) => {
            match behind(after, b"}\n") {
                Some(rest) => Ok(Some((Row::from_vec(values), rest))),
                None => Ok(None),
            }
        }
        None => Ok(None),
    }
}
