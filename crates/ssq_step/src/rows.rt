//! The rows that a join keeps, out of their bytes.

ghost use Rattle.std.specs.Prelude.{◌≡◌, ◌∷◌, ◌+ℤ◌, ◌-ℤ◌, ℕ, ℤ, Bool, List, All, FitsSigned, Some, IfOk, IfSome, IsSomeAnd};
ghost use Rattle.std.specs.Int.{w64};
ghost use Rattle.ssq_value.specs.declared.value.Value.{Value as Cell};
ghost use Rattle.ssq_meaning.specs.Fit.{IsFit};
ghost use Rattle.ssq_meaning.specs.Join.{last_time, met_byte, side_byte};
ghost use Rattle.ssq_step.specs.Rows.{HasEventTime, HasTime, IsKeptRow, HasParts, stream_of, width_of};

use ssq_field::Bytes;
use ssq_keys::{read_key, time_at};
use ssq_meaning::event_column;
use ssq_shape::{Bound, Joining, TimeBound};
use ssq_value::{Row, Value};
use std::alloc::{AllocError, Global};

/// A row that a join keeps.
#[derive(Drop)]
pub struct KeptRow {
    /// Whether it is of the stream of FROM.
    pub left: bool,
    pub values: Row,
    /// Whether it met a partner.
    pub met: bool,
}

/// The side of a row, by the first byte of its key.
fn side_of(key: &[u8]) -> Option<bool>
    ensures found { IfSome result (λ left. (rest : List ℕ) × (key.now ≡ side_byte left ∷ rest)) }
    ensures each { (left : Bool) (rest : List ℕ) → key.now ≡ side_byte left ∷ rest → result ≡ Some left }
{
    match key.first()? {
        0 => Some(true),
        1 => Some(false),
        _ => None,
    }
}

fn met_of(byte: u8) -> Option<bool>
    ensures found { IfSome result (λ met. byte ≡ met_byte met) }
    ensures each { (met : Bool) → byte ≡ met_byte met → result ≡ Some met }
{
    match byte {
        0 => Some(false),
        1 => Some(true),
        _ => None,
    }
}

fn stream_of(left: bool) -> u32
    ensures { result ≡ stream_of left }
{
    if left { 0 } else { 1 }
}

/// How many columns the stream of a side has: how many values a row of it has.
pub fn width_of(bound: &Bound, left: bool) -> usize
    ensures { result ≡ width_of bound.now left }
{
    match bound.streams.as_slice().get(stream_of(left) as usize) {
        Some(stream) => stream.schema.columns().len(),
        None => 0,
    }
}

/// The bytes of a row that is kept, taken apart.
#[derive(Clone, Copy)]
struct RowBytes<'a> {
    left: bool,
    values: &'a [u8],
    met: bool,
}

/// The parts of the bytes under which a row is kept, and of those that are. None where these are no row's.
fn parts_of<'a>(key: &[u8], value: &'a [u8]) -> Option<RowBytes<'a>>
    ensures found { IfSome result (λ parts. HasParts key.now value.now parts.left parts.values.now parts.met) }
    ensures each { (left : Bool) (values : List ℕ) (met : Bool) → HasParts key.now value.now left values met →
        IsSomeAnd result (λ parts. (parts.left ≡ left) × (parts.values.now ≡ values) × (parts.met ≡ met)) }
{
    let left = side_of(key)?;
    let (last, values) = value.split_last()?;
    let met = met_of(*last)?;
    Some(RowBytes { left, values, met })
}

/// The row that is kept under these bytes, with these after them. None where it is none that can be kept.
pub fn read_row(
    alloc: Global,
    bound: &Bound,
    key: &Bytes,
    value: &Bytes,
) -> Result<Option<KeptRow>, AllocError>
    ensures found { IfOk result (λ found. IfSome found (λ row. IsKeptRow bound.now row.left row.values row.met key.now value.now)) }
    ensures each { (left : Bool) (values : List Cell) (met : Bool) → IsKeptRow bound.now left values met key.now value.now →
        IfOk result (λ found. IsSomeAnd found (λ row. (row.left ≡ left) × (row.values ≡ values) × (row.met ≡ met))) }
{
    let Some(RowBytes { left, values, met }) = parts_of(key.as_slice(), value.as_slice()) else {
        return Ok(None);
    };
    match read_key(alloc, values, width_of(bound, left))? {
        Some(values) => Ok(Some(KeptRow { left, values, met })),
        None => Ok(None),
    }
}

/// The greatest time that a partner of a row can have, where it is a number of 64 bits.
fn last_time(bound: Option<TimeBound>, left: bool, time: Option<i64>) -> Option<i64>
    ensures found { IfSome result (λ last. (last_time bound left time ≡ Some last) × FitsSigned w64 last) }
    ensures each { (last : ℤ) → FitsSigned w64 last → last_time bound left time ≡ Some last → result ≡ Some last }
{
    let bound = bound?;
    let time = time?;
    if left {
        time.checked_add(bound.hi)
    } else {
        time.checked_sub(bound.lo)
    }
}

/// The event time of the row that is kept under these bytes, with these after them, in microseconds since 1970. None where it has none, or is no
/// row, and without a bound. No value of it is copied.
pub fn event_time(bound: &Bound, joining: &Joining, key: &Bytes, value: &Bytes) -> Option<i64>
    ensures { HasEventTime bound.now joining.now key.now value.now result }
{
    let limits = joining.bound?;
    let RowBytes { left, values, .. } = parts_of(key.as_slice(), value.as_slice())?;
    time_at(values, width_of(bound, left), event_column(left, limits))
}

/// The time at which the row that is kept under these bytes is over, in microseconds since 1970: where a watermark is at or above it, the row is
/// kept no more. None where it has none, or is no row, and without a bound. No value of it is copied.
pub(crate) fn row_time(bound: &Bound, joining: &Joining, key: &Bytes, value: &Bytes) -> Option<i64>
    ensures { HasTime bound.now joining.now key.now value.now result }
{
    let left = side_of(key.as_slice())?;
    let time = event_time(bound, joining, key, value);
    last_time(joining.bound, left, time)
}
