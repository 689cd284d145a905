//! What a row hands on, by the shape of the query.

ghost use Rattle.std.specs.Prelude.{◌≡◌, ◌∷◌, [], All, IfOk, Ok};
ghost use Rattle.ssq_shape.specs.declared.bound.Shape.TheVariants.{Dedup, Group};
ghost use Rattle.ssq_shape.specs.Evaluation.{cell_at};
ghost use Rattle.ssq_expr.specs.Answers.{Answers, itself};
ghost use Rattle.ssq_meaning.specs.Dedup.{handed_to_dedup, key_in};
ghost use Rattle.ssq_meaning.specs.Feeding.{handed};
ghost use Rattle.ssq_meaning.specs.Fit.{IsFit};
ghost use Rattle.ssq_meaning.specs.Group.{argument_of, arguments_of, handed_to_groups};
ghost use Rattle.ssq_meaning.specs.Join.{handed_to_join, join_key, key_column};
ghost use Rattle.ssq_feed.specs.Finding.{IsFoundFor, IsHandedBy};
ghost use Rattle.ssq_feed.specs.Keys.{IsReadRow};
ghost use Rattle.ssq_feed.specs.Handing.{HandsOn, handed_shown};

use crate::dealer::{Dealer, Origin, Source};
use crate::query::Query;
use ssq_expr::{EvalFault, eval, passes, show};
use ssq_meaning::{join_time, placed_time};
use ssq_shape::{Aggregate, Bound, Grouping, Joining, KeyPair, Shape, Typed};
use ssq_value::{Row, Value};
use std::alloc::{AllocError, Global};

fn argument_of(alloc: Global, argument: &Option<Typed>, row: &[Value]) -> Result<Value, EvalFault>
    requires fit { All IsFit row.now }
    ensures value { Answers itself result (argument_of argument.now row.now) }
    ensures fit { IfOk result IsFit }
{
    match argument {
        Some(argument) => eval(alloc, argument, row),
        None => Ok(Value::Truth(true)),
    }
}

/// The arguments of the aggregates, evaluated from the left, with room for so many values more.
#[tactic(auto, unfolding(ssq_meaning::specs::Group::arguments_of))]
fn arguments_of(
    alloc: Global,
    aggregates: &[Aggregate],
    room: usize,
    row: &[Value],
) -> Result<Vec<Value>, EvalFault>
    requires fit { All IsFit row.now }
    ensures values { Answers (λ values. values.items) result (arguments_of aggregates.now row.now) }
    ensures fit { IfOk result (λ values. All IsFit values.items) }
{
    let mut values = Vec::with_capacity(alloc, aggregates.len().saturating_add(room))?;
    for aggregate in aggregates {
        let value = argument_of(alloc, &aggregate.argument, row)?;
        values.push(value).map_err(AllocError::from)?;
    }
    Ok(values)
}

/// Deals a row as SELECT shows it, where WHERE is TRUE on it. It has a key without values.
fn deal_shown(
    alloc: Global,
    bound: &Bound,
    origin: Origin,
    row: &[Value],
    dealer: &mut Dealer,
) -> Result<(), EvalFault>
    requires { IsReadRow row.now }
    ensures { HandsOn origin dealer.old.buckets dealer.new.buckets result (handed_shown bound.now row.now) }
{
    if let Some(values) = show(alloc, bound, row)? {
        dealer.deal_values(origin, Row::new(alloc), None, values)?;
    }
    Ok(())
}

/// The value of a column: NULL, where the row does not have it.
fn cell_at(row: &[Value], column: usize) -> Result<Value, AllocError>
    requires { All IsFit row.now }
    ensures value { IfOk result (λ value. value ≡ cell_at row.now column) }
    ensures fit { IfOk result IsFit }
{
    match row.get(column) {
        Some(value) => value.clone(),
        None => Ok(Value::Null),
    }
}

/// The values of the columns, in their order, with room for so many values more.
fn key_in(alloc: Global, columns: &[usize], room: usize, row: &[Value]) -> Result<Row, AllocError>
    requires { All IsFit row.now }
    ensures key { IfOk result (λ key. key ≡ key_in columns.now row.now) }
    ensures fit { IfOk result (All IsFit) }
{
    let mut key = Vec::with_capacity(alloc, columns.len().saturating_add(room))?;
    for column in columns {
        key.push(cell_at(row, *column)?)?;
    }
    Ok(Row::from_vec(key))
}

/// Deals a row as SELECT shows it, where WHERE is TRUE on it, by its values in the columns of DEDUPLICATE.
#[tactic(auto, unfolding(ssq_meaning::specs::Dedup::handed_to_dedup))]
fn deal_distinguished(
    alloc: Global,
    query: &Query<'_>,
    columns: &[usize],
    origin: Origin,
    row: &[Value],
    dealer: &mut Dealer,
) -> Result<(), EvalFault>
    requires { IsHandedBy origin.stream query.now (Dedup columns.now) row.now }
    ensures { HandsOn origin dealer.old.buckets dealer.new.buckets result (handed_to_dedup query.now.bound.now columns.now row.now) }
{
    if let Some(values) = show(alloc, query.bound, row)? {
        let key = key_in(alloc, columns, values.len(), row)?;
        let time = placed_time(query.place, key.as_slice());
        dealer.deal_values(origin, key, time, values)?;
    }
    Ok(())
}

/// Deals the arguments of the aggregates to each group of a row on which WHERE is TRUE. They have room for the values of a group's key.
#[tactic(auto, unfolding(ssq_meaning::specs::Group::handed_to_groups))]
fn deal_grouped(
    alloc: Global,
    query: &Query<'_>,
    grouping: &Grouping,
    origin: Origin,
    row: &[Value],
    dealer: &mut Dealer,
) -> Result<(), EvalFault>
    requires { IsHandedBy origin.stream query.now (Group grouping.now) row.now }
    ensures { HandsOn origin dealer.old.buckets dealer.new.buckets result (handed_to_groups query.now.bound.now grouping.now row.now) }
{
    if !passes(alloc, &query.bound.filter, row)? {
        return Ok(());
    }
    let parts = grouping.keys.as_slice();
    let arguments = arguments_of(alloc, grouping.aggregates.as_slice(), parts.len(), row)?;
    let count = arguments.len();
    let from = Source {
        origin,
        place: query.place,
        row,
        arguments: count,
        cells: count.saturating_add(parts.len()),
    };
    dealer.deal_groups(alloc, &from, parts, arguments)?;
    Ok(())
}

fn key_column(left: bool, pair: &KeyPair) -> usize
    ensures { result ≡ key_column left pair.now }
{
    if left { pair.left } else { pair.right }
}

/// The join key of a row of a stream: its values in the columns of the key equalities. It has room for the row.
fn join_key(alloc: Global, pairs: &[KeyPair], stream: u32, row: &[Value]) -> Result<Row, AllocError>
    requires { All IsFit row.now }
    ensures key { IfOk result (λ key. key ≡ join_key pairs.now stream row.now) }
    ensures fit { IfOk result (All IsFit) }
{
    let mut key = Vec::with_capacity(alloc, pairs.len().saturating_add(row.len()))?;
    for pair in pairs {
        key.push(cell_at(row, key_column(stream == 0, pair))?)?;
    }
    Ok(Row::from_vec(key))
}

/// Deals the row of a join as it was read, by its join key, with its event time where the join has a bound.
fn deal_paired(
    alloc: Global,
    joining: &Joining,
    origin: Origin,
    row: Row,
    dealer: &mut Dealer,
) -> Result<(), EvalFault>
    requires { IsReadRow row }
    ensures { HandsOn origin dealer.old.buckets dealer.new.buckets result (Ok (handed_to_join joining.now origin.stream row ∷ [])) }
{
    let key = join_key(
        alloc,
        joining.keys.as_slice(),
        origin.stream,
        row.as_slice(),
    )?;
    let time = join_time(joining.bound, origin.stream, row.as_slice());
    dealer.deal_values(origin, key, time, row)?;
    Ok(())
}

/// Deals what a row of a stream hands on. WHERE is evaluated first, and where it is TRUE the items of SELECT or the arguments of the aggregates, from
/// the left; for a join nothing is. The room of a row that is not handed on itself is given back.
pub(crate) fn hand_on(
    alloc: Global,
    query: &Query<'_>,
    origin: Origin,
    row: Row,
    room: &mut Vec<Value>,
    dealer: &mut Dealer,
) -> Result<(), EvalFault>
    requires found { IsFoundFor origin.stream query.now }
    requires read { IsReadRow row }
    ensures { HandsOn origin dealer.old.buckets dealer.new.buckets result (handed query.now.bound.now origin.stream row) }
{
    let values = row.as_slice();
    let done = match &query.bound.shape {
        Shape::Join(joining) => return deal_paired(alloc, joining, origin, row, dealer),
        Shape::Group(grouping) => deal_grouped(alloc, query, grouping, origin, values, dealer),
        Shape::Dedup(columns) => {
            deal_distinguished(alloc, query, columns.as_slice(), origin, values, dealer)
        },
        Shape::Plain => deal_shown(alloc, query.bound, origin, values, dealer),
    };
    *room = row.into_vec();
    done
}
