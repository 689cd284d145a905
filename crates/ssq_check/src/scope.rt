//! The names that an expression may use.

ghost use Rattle.std.specs.Prelude.{◌≡◌};
ghost use Rattle.ssq_check.specs.Scope.{is_window_name, is_window_here, in_source, bare_spot, source_named, known, named_spot, grouped, column_kind};

use crate::columns::Columns;
use crate::fault::{BindFault, Cause};
use crate::keys::Keys;
use ssq_ast::{ColumnRef, Ident};
use ssq_value::{ColType, Text};

/// A stream of FROM or JOIN that is declared.
#[derive(Drop)]
pub struct Source {
    pub name: Text,
    pub columns: Columns,
    /// The name of its event column, where it has a watermark.
    pub watermark: Option<Text>,
}

/// The stream of FROM or that of JOIN.
#[derive(Clone, Copy, PartialEq, Eq)]
pub enum Side {
    Left,
    Right,
}

/// A column: its stream, its index there, and its type.
#[derive(Clone, Copy)]
pub struct Spot {
    pub side: Side,
    pub index: usize,
    pub kind: ColType,
}

/// What rows are grouped by.
#[derive(Clone, Copy)]
pub enum Key {
    Column(Spot),
    /// A window.
    Window,
}

/// The names of a query.
#[derive(Drop)]
pub struct Scope {
    /// The stream of FROM, where it is declared.
    pub left: Option<Source>,
    /// The stream of JOIN, where it is declared.
    pub right: Option<Source>,
    /// What GROUP BY lists, as far as its names are known.
    pub keys: Keys,
}

/// Where an expression stands.
#[derive(Clone, Copy)]
pub enum Within {
    /// In WHERE, in ON, in an aggregate, and in SELECT of a query that isn't Group: no aggregate may stand here.
    Row,
    /// In SELECT or HAVING of Group, outside aggregates: columns must be grouped.
    Group,
}

fn in_source(side: Side, source: &Option<Source>, name: &Text) -> Option<Spot>
    ensures { result ≡ in_source side source.now name.now }
{
    match source {
        Some(source) => source.columns.spot(side, name),
        None => None,
    }
}

/// The column of a bare name, or what is wrong with the name.
pub fn bare_spot(scope: &Scope, name: &Ident) -> Result<Spot, BindFault>
    ensures { result ≡ bare_spot scope.now name.now }
{
    let left = in_source(Side::Left, &scope.left, &name.text);
    let right = in_source(Side::Right, &scope.right, &name.text);
    match (left, right) {
        (Some(_), Some(_)) => Err(BindFault {
            at: name.at,
            cause: Cause::DoubleName,
        }),
        (Some(spot), None) => Ok(spot),
        (None, Some(spot)) => Ok(spot),
        (None, None) => Err(BindFault {
            at: name.at,
            cause: Cause::UnknownName,
        }),
    }
}

fn is_named(source: &Option<Source>, name: &str) -> bool
    ensures { result ≡ source_named source.now name.now }
{
    match source {
        Some(source) => source.name.as_str() == name,
        None => false,
    }
}

fn known(spot: Option<Spot>, at: usize) -> Result<Spot, BindFault>
    ensures { result ≡ known spot at }
{
    match spot {
        Some(spot) => Ok(spot),
        None => Err(BindFault {
            at,
            cause: Cause::UnknownName,
        }),
    }
}

pub(crate) fn named_spot(scope: &Scope, stream: &Ident, column: &Ident) -> Result<Spot, BindFault>
    ensures { result ≡ named_spot scope.now stream.now column.now }
{
    if is_named(&scope.left, stream.text.as_str()) {
        known(in_source(Side::Left, &scope.left, &column.text), column.at)
    } else if is_named(&scope.right, stream.text.as_str()) {
        known(
            in_source(Side::Right, &scope.right, &column.text),
            column.at,
        )
    } else {
        Err(BindFault {
            at: stream.at,
            cause: Cause::UnknownName,
        })
    }
}

/// Whether a column of this name is the start or the end of a window.
pub fn is_window_name(name: &str) -> bool
    ensures { result ≡ is_window_name name.now }
{
    name == "window_start" || name == "window_end"
}

fn grouped(
    keys: &Keys,
    within: Within,
    at: usize,
    spot: Result<Spot, BindFault>,
) -> Result<ColType, BindFault>
    ensures { result ≡ grouped keys.now within at spot }
{
    match spot {
        Err(fault) => Err(fault),
        Ok(spot) => match within {
            Within::Row => Ok(spot.kind),
            Within::Group => {
                if keys.has(spot) {
                    Ok(spot.kind)
                } else {
                    Err(BindFault {
                        at,
                        cause: Cause::NotGrouped,
                    })
                }
            }
        },
    }
}

fn is_window_here(scope: &Scope, within: Within, name: &str) -> bool
    ensures { result ≡ is_window_here scope.now within name.now }
{
    match within {
        Within::Row => false,
        Within::Group => scope.keys.has_window() && is_window_name(name),
    }
}

/// The type of a column, or what is wrong with its name.
pub(crate) fn column_kind(
    scope: &Scope,
    within: Within,
    column: &ColumnRef,
) -> Result<ColType, BindFault>
    ensures { result ≡ column_kind scope.now within column.now }
{
    match &column.stream {
        Some(stream) => {
            let spot = named_spot(scope, stream, &column.column);
            grouped(&scope.keys, within, stream.at, spot)
        }
        None => {
            if is_window_here(scope, within, column.column.text.as_str()) {
                Ok(ColType::Timestamp)
            } else {
                let spot = bare_spot(scope, &column.column);
                grouped(&scope.keys, within, column.column.at, spot)
            }
        }
    }
}
