//! Which rows meet the bound of a join.

ghost use Rattle.std.specs.Prelude.{◌≡◌, ◌+ℤ◌, int_le};
ghost use Rattle.std.specs.List.{list_any};
ghost use Rattle.ssq_shape.specs.Evaluation.{is_null};
ghost use Rattle.ssq_meaning.specs.Join.{is_near};

use ssq_shape::TimeBound;
use ssq_value::Value;

/// Whether a join key has a NULL: no row meets it then.
pub(crate) fn has_null(key: &[Value]) -> bool
    ensures { result ≡ list_any is_null key.now }
{
    key.contains(&Value::Null)
}

/// Whether one time is at or below another with a shift.
fn is_up_to(time: i64, other: i64, by: i64) -> bool
    ensures { result ≡ int_le time (other +ℤ by) }
{
    match other.checked_add(by) {
        Some(end) => time <= end,
        None => by > 0,
    }
}

/// Whether one time with a shift is at or below another.
fn is_from(other: i64, by: i64, time: i64) -> bool
    ensures { result ≡ int_le (other +ℤ by) time }
{
    match other.checked_add(by) {
        Some(start) => start <= time,
        None => by < 0,
    }
}

/// Whether a left row and a right one meet the bound, by their times.
pub(crate) fn is_near(bound: Option<TimeBound>, left: Option<i64>, right: Option<i64>) -> bool
    ensures { result ≡ is_near bound left right }
{
    let Some(bound) = bound else {
        return true;
    };
    match (left, right) {
        (Some(left), Some(right)) => {
            is_from(left, bound.lo, right) && is_up_to(right, left, bound.hi)
        },
        _ => false,
    }
}
