//! What names mean where expressions are built.

ghost use Rattle.std.specs.Prelude.{◌≡◌, ◌<◌, ◌^◌};
ghost use Rattle.ssq_check.specs.Scope.{bare_spot};
ghost use Rattle.ssq_check.specs.Joined.{spot_in, spot_of};
ghost use Rattle.ssq_bind.specs.Value.{width, behind, row_index, is_window_column, key_spot, key_index};

use ssq_ast::{ColumnRef, Ident};
use ssq_check::{Scope, Side, Source, Spot, is_window_name, spot_in};

/// What expressions rest on: the names that they may use, and the size of the query's window in microseconds.
#[derive(Drop)]
pub struct Context {
    pub scope: Scope,
    /// 0 where rows are not grouped by a window.
    pub size: i64,
}

/// A column by its bare name: none where no stream has it, or both.
pub(crate) fn bare_spot(scope: &Scope, name: &Ident) -> Option<Spot>
    ensures { result ≡ spot_in (bare_spot scope.now name.now) }
{
    spot_in(ssq_check::bare_spot(scope, name))
}

/// The column that is meant.
pub(crate) fn spot_of(scope: &Scope, column: &ColumnRef) -> Option<Spot>
    ensures { result ≡ spot_in (spot_of scope.now column.now) }
{
    spot_in(ssq_check::spot_of(scope, column))
}

fn width(source: &Option<Source>) -> usize
    ensures width { result ≡ width source.now }
    ensures small { result < 2 ^ 63 }
{
    match source {
        Some(source) => source.columns.as_slice().len(),
        None => 0,
    }
}

fn behind(left: usize, right: usize, index: usize) -> usize
    requires left { left < 2 ^ 63 }
    requires right { right < 2 ^ 63 }
    ensures { result ≡ behind left right index }
{
    if index < right { left + index } else { 0 }
}

/// The index of a column in the row: the left columns come first.
pub(crate) fn row_index(scope: &Scope, spot: Option<Spot>) -> usize
    ensures { result ≡ row_index scope.now spot }
{
    match spot {
        Some(spot) => match spot.side {
            Side::Left => spot.index,
            Side::Right => behind(width(&scope.left), width(&scope.right), spot.index),
        },
        None => 0,
    }
}

fn key_spot(scope: &Scope, spot: Option<Spot>) -> Option<usize>
    ensures { result ≡ key_spot scope.now spot }
{
    match spot {
        Some(spot) => scope.keys.place(spot),
        None => None,
    }
}

/// Whether a column is `window_start` or `window_end`, where rows are grouped by a window.
pub(crate) fn is_window_column(scope: &Scope, column: &ColumnRef) -> bool
    ensures { result ≡ is_window_column scope.now column.now }
{
    match &column.stream {
        Some(_) => false,
        None => scope.keys.has_window() && is_window_name(column.column.text.as_str()),
    }
}

/// The index of the key that a column is, where it is one.
pub(crate) fn key_index(scope: &Scope, column: &ColumnRef) -> Option<usize>
    ensures { result ≡ key_index scope.now column.now }
{
    if is_window_column(scope, column) {
        scope.keys.window()
    } else {
        key_spot(scope, spot_of(scope, column))
    }
}
