//! The times of a row.

ghost use Rattle.std.specs.Prelude.{◌≡◌, All, IfSome, option_and_then, slice_get};
ghost use Rattle.ssq_time.specs.Time.{IsLineTime};
ghost use Rattle.ssq_value.specs.Kind.{IfTime};
ghost use Rattle.ssq_shape.specs.Evaluation.{time_in};

use ssq_value::Value;

/// The time in a column of a row, if there is one.
pub(crate) fn time_at(row: &[Value], column: usize) -> Option<i64>
    ensures time { result ≡ option_and_then time_in (slice_get row.now column) }
    ensures years { All (IfTime IsLineTime) row.now → IfSome result IsLineTime }
{
    match row.get(column) {
        Some(Value::Time(time)) => Some(*time),
        _ => None,
    }
}
