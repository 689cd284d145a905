//! Keys of so many values.

ghost use Rattle.std.specs.Prelude.{◌≡◌, Some, List, length, All, IfOk, IfSome};
ghost use Rattle.ssq_value.specs.declared.value.Value.{Value as Cell};
ghost use Rattle.ssq_value.specs.Key.{keys_of};
ghost use Rattle.ssq_shape.specs.Evaluation.{cell_at, time_in};
ghost use Rattle.ssq_shape.specs.Fit.{IsFit};

use crate::value::{spelled_and_rest, value_and_rest};
use ssq_value::Row;
use std::alloc::{AllocError, Global};

/// The key of so many values that the bytes spell, all of them. None where they spell none that a state can hold.
pub fn read_key(alloc: Global, bytes: &[u8], count: usize) -> Result<Option<Row>, AllocError>
    ensures found { IfOk result (λ found. IfSome found (λ key. keys_of key ≡ bytes.now)) }
    ensures fit { IfOk result (λ found. IfSome found (All IsFit)) }
    ensures many { IfOk result (λ found. IfSome found (λ key. length key ≡ count)) }
    ensures each { (key : List Cell) → All IsFit key → length key ≡ count → keys_of key ≡ bytes.now → IfOk result (λ found. found ≡ Some key) }
{
    let mut values = Vec::with_capacity(alloc, count)?;
    let mut rest = bytes;
    for _ in 0..count {
        let Some((value, behind)) = value_and_rest(alloc, rest)? else {
            return Ok(None);
        };
        values.push(value)?;
        rest = behind;
    }
    if rest.is_empty() {
        Ok(Some(Row::from_vec(values)))
    } else {
        Ok(None)
    }
}

/// The time at a place among so many values that the bytes spell, all of them, in microseconds since 1970; no value is copied. None where the
/// value there is no time, and where the bytes spell no so many values that a state can hold.
pub fn time_at(bytes: &[u8], count: usize, place: usize) -> Option<i64>
    ensures found { IfSome result (λ time. (key : List Cell) × All IsFit key × (length key ≡ count) × (keys_of key ≡ bytes.now) × (time_in (cell_at key place) ≡ Some time)) }
    ensures each { (key : List Cell) → All IsFit key → length key ≡ count → keys_of key ≡ bytes.now → result ≡ time_in (cell_at key place) }
{
    let mut time = None;
    let mut rest = bytes;
    for at in 0..count {
        let (value, behind) = spelled_and_rest(rest)?;
        if at == place {
            time = value.time();
        }
        rest = behind;
    }
    if rest.is_empty() { time } else { None }
}
