//! What SELECT shows, and HAVING.

ghost use Rattle.std.specs.Prelude.{◌≡◌, [], ◌∷◌, ◌++◌, length, IfOk, OnOk};
ghost use Rattle.std.specs.List.{flat_map};
ghost use Rattle.std.specs.Option.{option_copied, option_map};
ghost use Rattle.ssq_bind.specs.Shapes.{item_value, item_aggregates, kind_or_bigint, spot_kind, column_type, item_kind, item_column, shown_key, output_of, outputs_of, having_value, having_aggregates};

use crate::context::{Context, is_window_column, key_index, spot_of};
use crate::value::{column_value, value_of};
use ssq_ast::{ColumnRef, Condition, Item};
use ssq_check::{Scope, Spot, Within, bare_column, check_expr, item_name};
use ssq_shape::{Aggregate, Output, Typed};
use ssq_value::{ColType, Sequence};
use std::alloc::{AllocError, Global};

fn kind_or_bigint(kind: Option<ColType>) -> ColType
    ensures { result ≡ kind_or_bigint kind }
{
    match kind {
        Some(kind) => kind,
        None => ColType::Bigint,
    }
}

fn spot_kind(spot: Option<Spot>) -> Option<ColType>
    ensures { result ≡ spot_kind spot }
{
    match spot {
        Some(spot) => Some(spot.kind),
        None => None,
    }
}

fn column_type(scope: &Scope, within: Within, column: &ColumnRef) -> Option<ColType>
    ensures { result ≡ column_type scope.now within column.now }
{
    match within {
        Within::Row => spot_kind(spot_of(scope, column)),
        Within::Group => {
            if is_window_column(scope, column) {
                Some(ColType::Timestamp)
            } else {
                spot_kind(spot_of(scope, column))
            }
        }
    }
}

fn item_kind(scope: &Scope, within: Within, item: &Item) -> Option<ColType>
    ensures { result ≡ item_kind scope.now within item.now }
{
    match item {
        Item::Column { column, .. } => column_type(scope, within, column),
        Item::Named { value, .. } => match check_expr(scope, within, value) {
            Ok(kind) => Some(kind),
            Err(_) => None,
        },
    }
}

fn item_column(item: &Item) -> Option<&ColumnRef>
    ensures { option_copied result ≡ item_column item.now }
{
    match item {
        Item::Column { column, .. } => Some(column),
        Item::Named { value, .. } => bare_column(value),
    }
}

fn shown_key(scope: &Scope, within: Within, column: Option<&ColumnRef>) -> Option<usize>
    ensures { result ≡ shown_key scope.now within (option_copied column.entry) }
{
    match within {
        Within::Row => None,
        Within::Group => match column {
            Some(column) => key_index(scope, column),
            None => None,
        },
    }
}

fn item_value(
    alloc: Global,
    context: &Context,
    within: Within,
    found: &mut Sequence<Aggregate>,
    item: &Item,
) -> Result<Typed, AllocError>
    ensures value { IfOk result (λ typed. typed ≡ item_value context.now within (length found.old) item.now) }
    ensures found { OnOk result (found.new ≡ found.old ++ item_aggregates context.now within item.now) }
{
    match item {
        Item::Column { column, .. } => column_value(alloc, context, within, column),
        Item::Named { value, .. } => value_of(alloc, context, within, found, value),
    }
}

/// Puts an item's column of the result after those that stand in front of it.
fn put_output(
    alloc: Global,
    context: &Context,
    within: Within,
    found: &mut Sequence<Aggregate>,
    outputs: &mut Sequence<Output>,
    item: &Item,
) -> Result<(), AllocError>
    ensures outputs { OnOk result (outputs.new ≡ outputs.old ++ output_of context.now within (length found.old) item.now ∷ []) }
    ensures found { OnOk result (found.new ≡ found.old ++ item_aggregates context.now within item.now) }
{
    let name = item_name(item).clone()?;
    let value = item_value(alloc, context, within, found, item)?;
    outputs.push(Output {
        name,
        kind: kind_or_bigint(item_kind(&context.scope, within, item)),
        value,
        key: shown_key(&context.scope, within, item_column(item)),
    })
}

/// The columns of the result. The aggregates of SELECT go after those that were found.
#[tactic(auto, unfolding(crate::specs::Shapes::shown, crate::specs::Lists::gathered))]
pub(crate) fn outputs_of(
    alloc: Global,
    context: &Context,
    within: Within,
    found: &mut Sequence<Aggregate>,
    items: &[Item],
) -> Result<Sequence<Output>, AllocError>
    ensures outputs { IfOk result (λ outputs. outputs ≡ outputs_of context.now within (length found.old) items.now) }
    ensures found { OnOk result (found.new ≡ found.old ++ flat_map (item_aggregates context.now within) items.now) }
{
    let mut outputs = Sequence::new(alloc);
    for item in items {
        put_output(alloc, context, within, found, &mut outputs, item)?;
    }
    Ok(outputs)
}

/// What groups must meet. Its aggregates go after those of SELECT.
pub(crate) fn having_of(
    alloc: Global,
    context: &Context,
    within: Within,
    found: &mut Sequence<Aggregate>,
    having: &Option<Condition>,
) -> Result<Option<Typed>, AllocError>
    ensures value { IfOk result (λ typed. typed ≡ option_map (having_value context.now within (length found.old)) having.now) }
    ensures found { OnOk result (found.new ≡ found.old ++ having_aggregates context.now within having.now) }
{
    match having {
        Some(condition) => Ok(Some(value_of(alloc, context, within, found, &condition.value)?)),
        None => Ok(None),
    }
}
