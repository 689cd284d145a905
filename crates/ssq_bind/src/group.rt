//! GROUP BY, DEDUPLICATE and ORDER BY.

ghost use Rattle.std.specs.Prelude.{◌≡◌, map, position, IfOk};
ghost use Rattle.ssq_bind.specs.Value.{or_zero};
ghost use Rattle.ssq_bind.specs.Shapes.{order_of, is_output, sort_key, size_in, window_size, group_items, bare_index, key_of};

use crate::context::{bare_spot, row_index};
use ssq_ast::{Group, GroupBy, Ident, Item, OrderBy};
use ssq_check::{Scope, item_name, slide_of};
use ssq_shape::{Direction, GroupKey, SortKey};
use ssq_value::Sequence;
use std::alloc::{AllocError, Global};

fn size_in(groups: &[Group]) -> i64
    ensures { result ≡ size_in groups.now }
{
    for group in groups {
        match group {
            Group::Window(window) => return window.size.micros,
            Group::Column(_) => {}
        }
    }
    0
}

/// The size of the window that rows are grouped by, 0 where there is none.
pub(crate) fn window_size(group: &Option<GroupBy>) -> i64
    ensures { result ≡ window_size group.now }
{
    match group {
        Some(by) => size_in(by.items.as_slice()),
        None => 0,
    }
}

fn bare_index(scope: &Scope, column: &Ident) -> usize
    ensures { result ≡ bare_index scope.now column.now }
{
    row_index(scope, bare_spot(scope, column))
}

fn key_of(scope: &Scope, group: &Group) -> GroupKey
    ensures { result ≡ key_of scope.now group.now }
{
    match group {
        Group::Column(column) => GroupKey::Column(bare_index(scope, column)),
        Group::Window(window) => GroupKey::Window {
            column: bare_index(scope, &window.column),
            size: window.size.micros,
            slide: slide_of(window),
        },
    }
}

fn keys(alloc: Global, scope: &Scope, groups: &[Group]) -> Result<Sequence<GroupKey>, AllocError>
    ensures { IfOk result (λ keys. keys ≡ map (key_of scope.now) groups.now) }
{
    let mut keys = Sequence::new(alloc);
    for group in groups {
        keys.push(key_of(scope, group))?;
    }
    Ok(keys)
}

/// What rows are grouped by, over rows.
pub(crate) fn keys_by(
    alloc: Global,
    scope: &Scope,
    group: &Option<GroupBy>,
) -> Result<Sequence<GroupKey>, AllocError>
    ensures { IfOk result (λ keys. keys ≡ map (key_of scope.now) (group_items group.now)) }
{
    match group {
        Some(by) => keys(alloc, scope, by.items.as_slice()),
        None => Ok(Sequence::new(alloc)),
    }
}

/// The columns by which repeats are known.
pub(crate) fn columns_by(
    alloc: Global,
    scope: &Scope,
    names: &[Ident],
) -> Result<Sequence<usize>, AllocError>
    ensures { IfOk result (λ columns. columns ≡ map (bare_index scope.now) names.now) }
{
    let mut columns = Sequence::new(alloc);
    for name in names {
        columns.push(bare_index(scope, name))?;
    }
    Ok(columns)
}

fn order_of(direction: ssq_ast::Direction) -> Direction
    ensures { result ≡ order_of direction }
{
    match direction {
        ssq_ast::Direction::Ascending => Direction::Ascending,
        ssq_ast::Direction::Descending => Direction::Descending,
    }
}

/// The first output of the name, the first of all where there is none, which is only in a query with a fault.
fn output_named(items: &[Item], name: &str) -> usize
    ensures { result ≡ or_zero (position (is_output name.now) items.now) }
{
    for (at, item) in items.iter().enumerate() {
        if item_name(item).as_str() == name {
            return at;
        }
    }
    0
}

fn sort_key(items: &[Item], by: &OrderBy) -> SortKey
    ensures { result ≡ sort_key items.now by.now }
{
    SortKey {
        output: output_named(items, by.name.text.as_str()),
        direction: order_of(by.direction),
    }
}

/// What the result is ordered by.
pub(crate) fn order_by(
    alloc: Global,
    items: &[Item],
    order: &[OrderBy],
) -> Result<Sequence<SortKey>, AllocError>
    ensures { IfOk result (λ keys. keys ≡ map (sort_key items.now) order.now) }
{
    let mut keys = Sequence::new(alloc);
    for by in order {
        keys.push(sort_key(items, by))?;
    }
    Ok(keys)
}
