//! What a row has for a part of a key.

ghost use Rattle.std.specs.Prelude.{◌≡◌, ◌<◌, All, IfOk, length, slice_get, Some};
ghost use Rattle.ssq_time.specs.Time.{IsLineTime};
ghost use Rattle.ssq_window.specs.Window.{window_count, first_start};
ghost use Rattle.ssq_meaning.specs.Fit.{IsFit};
ghost use Rattle.ssq_meaning.specs.Group.{key_values, window_starts};
ghost use Rattle.ssq_meaning.specs.Windows.{HasWindow, IsWindow};
ghost use Rattle.ssq_feed.specs.Keys.{IsReadRow, all_of, starts_of};

use crate::starts::Starts;
use crate::times::time_at;
use ssq_shape::GroupKey;
use ssq_value::Value;
use ssq_window::windows_of;
use std::alloc::AllocError;

/// The values that a row has for a part of a key: it is in a group for each.
#[derive(Clone, Copy)]
pub(crate) enum KeyValues<'a> {
    /// That of the column.
    Cell(&'a Value),
    /// NULL, of a column that the row does not have.
    Null,
    /// The start of each window that holds its time.
    Starts(Starts),
    /// None: no window holds NULL.
    NoWindow,
}

fn starts_of(time: i64, size: i64, slide: i64) -> Starts
    requires time { IsLineTime time }
    requires window { IsWindow size slide }
    ensures { starts_of result ≡ window_starts time size slide }
{
    let (first, count) = windows_of(time, size, slide);
    Starts {
        first,
        slide,
        count,
    }
}

impl<'a> KeyValues<'a> {
    /// Those of a row that was read.
    pub(crate) fn of(part: &GroupKey, row: &'a [Value]) -> KeyValues<'a>
        requires window { HasWindow part.now }
        requires read { IsReadRow row.now }
        ensures all { all_of result ≡ key_values part.now row.now }
        ensures fit { All IsFit (all_of result) }
    {
        match part {
            GroupKey::Column(column) => match row.get(*column) {
                Some(value) => KeyValues::Cell(value),
                None => KeyValues::Null,
            },
            GroupKey::Window {
                column,
                size,
                slide,
            } => match time_at(row, *column) {
                Some(time) => KeyValues::Starts(starts_of(time, *size, *slide)),
                None => KeyValues::NoWindow,
            },
        }
    }

    /// How many they are.
    pub(crate) fn count(&self) -> u32
        ensures { result ≡ length (all_of self.now) }
    {
        match self {
            KeyValues::Cell(_) | KeyValues::Null => 1,
            KeyValues::Starts(starts) => starts.count,
            KeyValues::NoWindow => 0,
        }
    }

    /// One of them, which are counted from 0.
    pub(crate) fn value(&self, nth: u32) -> Result<Value, AllocError>
        requires { nth < length (all_of self.now) }
        ensures { IfOk result (λ value. slice_get (all_of self.now) nth ≡ Some value) }
    {
        match self {
            KeyValues::Cell(value) => (*value).clone(),
            KeyValues::Starts(starts) => Ok(Value::Time(starts.start(nth))),
            KeyValues::Null | KeyValues::NoWindow => Ok(Value::Null),
        }
    }
}
