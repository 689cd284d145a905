//! Where the time of keys stands in them.

ghost use Rattle.std.specs.Prelude.{◌≡◌, All, List, IfSome};
ghost use Rattle.std.specs.List.{AllByRecursion};
ghost use Rattle.ssq_time.specs.Time.{IsStampTime};
ghost use Rattle.ssq_value.specs.declared.value.Value.{Value as Cell};
ghost use Rattle.ssq_meaning.specs.Dedup as repeats;
ghost use Rattle.ssq_meaning.specs.Fit.{IsFit};
ghost use Rattle.ssq_meaning.specs.Group.{event_time, time_by, unless_complete, window_end};
ghost use Rattle.ssq_meaning.specs.Keyed.{key_time};
ghost use Rattle.ssq_meaning.specs.Placed.{HasSpan, end_at, place_at, placed_time, time_from};
ghost use Rattle.ssq_meaning.specs.Windows.{HasWindow, HasWindows};

use crate::closing::time_at;
use ssq_shape::{
    Bound, GroupKey, Mode, Shape, TimeKey, event_column, event_of, event_part, time_key,
    window_part,
};
use ssq_value::Value;

/// Where the time of keys stands in them.
#[derive(Clone, Copy)]
pub enum KeyPlace {
    /// The time is the value there, counted from 0.
    Event { at: usize },
    /// The time is the end of the window that begins at the value there, counted from 0. Its size is in microseconds.
    Window { at: usize, size: i64 },
}

impl KeyPlace {
    /// Which of a key's values its time is told by, counted from 0.
    pub fn at(self) -> usize
        ensures { result ≡ place_at self }
    {
        match self {
            KeyPlace::Event { at } => at,
            KeyPlace::Window { at, .. } => at,
        }
    }

    /// The time of a key that has this time there, of the years 0001 to 9999, both in microseconds since 1970.
    pub fn time(self, own: i64) -> i64
        requires span { HasSpan self }
        requires years { IsStampTime own }
        ensures { result ≡ time_from self own }
    {
        match self {
            KeyPlace::Event { .. } => own,
            KeyPlace::Window { size, .. } => own + size,
        }
    }
}

/// The time of a key, by the place where the times of keys stand, in microseconds since 1970. There is none of a key that stays open.
pub fn placed_time(place: Option<KeyPlace>, key: &[Value]) -> Option<i64>
    requires span { IfSome place HasSpan }
    requires fit { All IsFit key.now }
    ensures { result ≡ placed_time place key.now }
{
    let place = place?;
    let own = time_at(key, place.at())?;
    Some(place.time(own))
}

fn window_at(keys: &[GroupKey], at: usize) -> Option<KeyPlace>
    requires sizes { AllByRecursion HasWindow keys.now }
    ensures time { (key : List Cell) → placed_time result key ≡ end_at keys.now key at }
    ensures span { IfSome result HasSpan }
{
    match keys.get(at) {
        Some(GroupKey::Window { size, .. }) => Some(KeyPlace::Window { at, size: *size }),
        _ => None,
    }
}

fn place_of_window(event: Option<usize>, keys: &[GroupKey]) -> Option<KeyPlace>
    requires sizes { AllByRecursion HasWindow keys.now }
    ensures time { (key : List Cell) → placed_time result key ≡ window_end event keys.now key }
    ensures span { IfSome result HasSpan }
{
    window_at(keys, window_part(event, keys)?)
}

fn place_of_event(event: Option<usize>, keys: &[GroupKey]) -> Option<KeyPlace>
    ensures time { (key : List Cell) → placed_time result key ≡ event_time event keys.now key }
    ensures span { IfSome result HasSpan }
{
    let at = event_part(event, keys)?;
    Some(KeyPlace::Event { at })
}

fn place_among(event: Option<usize>, columns: &[usize]) -> Option<KeyPlace>
    ensures time { (key : List Cell) → placed_time result key ≡ repeats.event_time event columns.now key }
    ensures span { IfSome result HasSpan }
{
    let at = event_column(event, columns)?;
    Some(KeyPlace::Event { at })
}

fn place_by(time: Option<TimeKey>, event: Option<usize>, keys: &[GroupKey]) -> Option<KeyPlace>
    requires sizes { AllByRecursion HasWindow keys.now }
    ensures time { (key : List Cell) → placed_time result key ≡ time_by time event keys.now key }
    ensures span { IfSome result HasSpan }
{
    match time {
        Some(TimeKey::WindowEnd) => place_of_window(event, keys),
        Some(TimeKey::EventTime) => place_of_event(event, keys),
        Some(TimeKey::Both) | None => None,
    }
}

fn unless_complete(mode: Mode, place: Option<KeyPlace>) -> Option<KeyPlace>
    requires { IfSome place HasSpan }
    ensures time { (key : List Cell) → placed_time result key ≡ unless_complete mode (placed_time place key) }
    ensures span { IfSome result HasSpan }
{
    match mode {
        Mode::Append | Mode::Update => place,
        Mode::Complete => None,
    }
}

/// Where the time of the query's keys stands in them. Where the watermark is at or above a key's time, rows of the key are late and the key is kept no
/// more. There is no place where keys stay open, and none where nothing is kept.
#[tactic(auto, unfolding(crate::specs::Group::closing_time, crate::specs::Dedup::closing_time))]
pub fn key_place(bound: &Bound) -> Option<KeyPlace>
    requires { HasWindows bound.now }
    ensures time { (key : List Cell) → key_time bound.now key ≡ placed_time result key }
    ensures span { IfSome result HasSpan }
{
    let event = event_of(bound.streams.as_slice());
    match &bound.shape {
        Shape::Group(grouping) => unless_complete(
            bound.mode,
            place_by(time_key(bound), event, grouping.keys.as_slice()),
        ),
        Shape::Dedup(columns) => unless_complete(
            bound.mode,
            place_among(event, columns.as_slice()),
        ),
        Shape::Plain | Shape::Join(_) => None,
    }
}
