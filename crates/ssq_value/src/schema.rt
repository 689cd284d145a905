//! The columns of a stream, and which of them is its event time.

ghost use Rattle.std.specs.Prelude.{◌≡◌, ◌<◌, ◌≤◌, Some, length, IfSome};
ghost use Rattle.std.specs.Option.{ForSome};
ghost use Rattle.ssq_value.specs.Layout.{IsEvent};

use crate::column::Column;
use std::marker::Model;

/// The columns of a stream in declared order, at most 64. Contracts see `columns` and `event`.
#[derive(Drop)]
pub struct Schema {
    columns: Vec<Column>,
    event: Option<usize>,
}

impl Model for Schema {
    ghost use Rattle.std.specs.Prelude.{◌≤◌, length};
    ghost use Rattle.std.specs.Option.{ForSome};
    ghost use Rattle.ssq_value.specs.Layout.{Layout, IsLayout};

    ghost Value = { Layout };

    ghost view = { λ s. record { columns = s.columns.items; event = s.event } };

    ghost invariant = { λ s. IsLayout (record { columns = s.columns.items; event = s.event }) };
}

impl Schema {
    /// The most columns that a schema has.
    pub const MAX_COLUMNS: usize = 64;

    /// A stream of these columns. A stream with a watermark has an event column, which is of type TIMESTAMP.
    pub fn new(columns: Vec<Column>, event: Option<usize>) -> Schema
        requires few { length columns.items ≤ 64 }
        requires time { ForSome event (IsEvent columns.items) }
        ensures columns { result.columns ≡ columns.items }
        ensures event { result.event ≡ event }
    {
        Schema { columns, event }
    }

    pub fn columns(&self) -> &[Column]
        ensures columns { result.now ≡ self.now.columns }
        ensures few { length result.now ≤ 64 }
    {
        self.columns.as_slice()
    }

    /// The index of the event column, where there is one.
    pub fn event(&self) -> Option<usize>
        ensures event { result ≡ self.now.event }
        ensures time { IfSome result (IsEvent self.now.columns) }
        ensures in_range { IfSome result (λ at. at < length self.now.columns) }
    {
        self.event
    }
}
