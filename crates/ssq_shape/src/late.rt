//! By what time a row is late, and which queries show more once the watermark rises.

ghost use Rattle.std.specs.Prelude.{◌≡◌};
ghost use Rattle.std.specs.List.{position};
ghost use Rattle.ssq_shape.specs.Late.{event_of, is_event, is_window_of, is_column_of, time_key_of, grouped_by, repeated_by, time_key, closes};

use crate::bound::{Bound, GroupKey, JoinKind, Mode, Shape, Stream};

/// The time by which lateness is tested.
#[derive(Clone, Copy)]
pub enum TimeKey {
    /// The end of the window, which is over the event column.
    WindowEnd,
    /// The event time, which is among the columns that rows are grouped by or deduplicated by.
    EventTime,
    /// The event time of either stream of a join with a bound.
    Both,
}

/// The event column of the stream of FROM, where it is watermarked.
pub fn event_of(streams: &[Stream]) -> Option<usize>
    ensures { result ≡ event_of streams.now }
{
    match streams.first() {
        Some(stream) => stream.schema.event(),
        None => None,
    }
}

/// Whether a column is the event column.
pub fn is_event(event: Option<usize>, column: usize) -> bool
    ensures { result ≡ is_event event column }
{
    match event {
        Some(at) => at == column,
        None => false,
    }
}

/// Whether rows are grouped by a window over the event column.
pub fn is_window_of(event: Option<usize>, key: &GroupKey) -> bool
    ensures { result ≡ is_window_of event key.now }
{
    match key {
        GroupKey::Window { column, .. } => is_event(event, *column),
        GroupKey::Column(_) => false,
    }
}

/// Whether rows are grouped by the event column itself.
pub fn is_column_of(event: Option<usize>, key: &GroupKey) -> bool
    ensures { result ≡ is_column_of event key.now }
{
    match key {
        GroupKey::Window { .. } => false,
        GroupKey::Column(column) => is_event(event, *column),
    }
}

/// Which part of GROUP BY is a window over the event column, counted from 0.
pub fn window_part(event: Option<usize>, keys: &[GroupKey]) -> Option<usize>
    ensures { result ≡ position (is_window_of event) keys.now }
{
    keys.iter().position(|key| is_window_of(event, key))
}

/// Which part of GROUP BY is the event column, counted from 0.
pub fn event_part(event: Option<usize>, keys: &[GroupKey]) -> Option<usize>
    ensures { result ≡ position (is_column_of event) keys.now }
{
    keys.iter().position(|key| is_column_of(event, key))
}

/// Which of the columns is the event column, counted from 0.
pub fn event_column(event: Option<usize>, columns: &[usize]) -> Option<usize>
    ensures { result ≡ position (is_event event) columns.now }
{
    columns.iter().position(|column| is_event(event, *column))
}

#[tactic(auto, unfolding(crate::specs::Late::grouped_by), using(crate::proofs::Places::some_place))]
fn grouped_by(event: Option<usize>, keys: &[GroupKey]) -> Option<TimeKey>
    ensures { result ≡ grouped_by event keys.now }
{
    if window_part(event, keys).is_some() {
        Some(TimeKey::WindowEnd)
    } else if event_part(event, keys).is_some() {
        Some(TimeKey::EventTime)
    } else {
        None
    }
}

#[tactic(auto, unfolding(crate::specs::Late::repeated_by), using(crate::proofs::Places::some_place))]
fn repeated_by(event: Option<usize>, columns: &[usize]) -> Option<TimeKey>
    ensures { result ≡ repeated_by event columns.now }
{
    if event_column(event, columns).is_some() {
        Some(TimeKey::EventTime)
    } else {
        None
    }
}

/// The time key of a query, whatever its mode: none where no row is ever late.
pub fn time_key(bound: &Bound) -> Option<TimeKey>
    ensures { result ≡ time_key bound.now }
{
    let event = event_of(bound.streams.as_slice());
    match &bound.shape {
        Shape::Plain => None,
        Shape::Group(grouping) => grouped_by(event, grouping.keys.as_slice()),
        Shape::Dedup(columns) => repeated_by(event, columns.as_slice()),
        Shape::Join(joining) => match joining.bound {
            Some(_) => Some(TimeKey::Both),
            None => None,
        },
    }
}

/// Whether a query shows rows once the watermark rises, also where no line comes: groups in Append, and an outer join.
pub fn closes(bound: &Bound) -> bool
    ensures { result ≡ closes bound.now }
{
    match &bound.shape {
        Shape::Plain => false,
        Shape::Group(_) => bound.mode == Mode::Append,
        Shape::Dedup(_) => false,
        Shape::Join(joining) => joining.kind != JoinKind::Inner,
    }
}
