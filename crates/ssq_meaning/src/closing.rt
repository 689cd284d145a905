//! When keys are closed.

ghost use Rattle.std.specs.Prelude.{◌≡◌, List, None, false};
ghost use Rattle.ssq_value.specs.declared.value.Value.{Value as Cell};
ghost use Rattle.ssq_shape.specs.Evaluation.{cell_at, time_in};
ghost use Rattle.ssq_meaning.specs.Join.{event_column, join_time};
ghost use Rattle.ssq_meaning.specs.Keyed.{key_length, key_time, keys_have_times, keys_have_times_in};

use ssq_shape::{Bound, Mode, Shape, TimeBound, TimeKey, time_key};
use ssq_value::Value;

/// The time in a column of a row, where there is one.
pub(crate) fn time_at(row: &[Value], column: usize) -> Option<i64>
    ensures { result ≡ time_in (cell_at row.now column) }
{
    match row.get(column) {
        Some(Value::Time(time)) => Some(*time),
        _ => None,
    }
}

/// The column of a side of a join that its bound is on, counted from 0: the event column of the side's stream.
pub fn event_column(left: bool, bound: TimeBound) -> usize
    ensures { result ≡ event_column left bound }
{
    if left { bound.left } else { bound.right }
}

/// The time of a row of a join, in microseconds since 1970: its event time, where the join has a bound. The stream's place in the order of FROM
/// says its side.
pub fn join_time(bound: Option<TimeBound>, stream: u32, row: &[Value]) -> Option<i64>
    ensures { result ≡ join_time bound stream row.now }
{
    match bound {
        Some(bound) => time_at(row, event_column(stream == 0, bound)),
        None => None,
    }
}

/// How many values a key of the query has: one for each part of GROUP BY, or for each column of DEDUPLICATE; else none.
pub fn key_length(bound: &Bound) -> usize
    ensures { result ≡ key_length bound.now }
{
    match &bound.shape {
        Shape::Group(grouping) => grouping.keys.len(),
        Shape::Dedup(columns) => columns.len(),
        Shape::Plain | Shape::Join(_) => 0,
    }
}

fn keys_have_times_in(mode: Mode, time: Option<TimeKey>) -> bool
    ensures { result ≡ keys_have_times_in mode time }
{
    match mode {
        Mode::Complete => false,
        Mode::Append | Mode::Update => time.is_some(),
    }
}

/// Whether keys of the query have times. Where they have none, each key stays open, and is kept for good.
pub fn keys_have_times(bound: &Bound) -> bool
    ensures is { result ≡ keys_have_times bound.now }
    ensures none { keys_have_times bound.now ≡ false → (key : List Cell) → key_time bound.now key ≡ None }
{
    keys_have_times_in(bound.mode, time_key(bound))
}
