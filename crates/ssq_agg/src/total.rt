//! Totals of aggregates, value by value.

ghost use Rattle.std.specs.Prelude.{◌≡◌, ◌<◌, ◌+◌, ◌^◌, ◌+ℤ◌, if◌then◌else◌, [], length, All, IfOk, OnOk, FitsSigned};
ghost use Rattle.std.specs.Int.{w128};
ghost use Rattle.std.specs.List.{AllByRecursion};
ghost use Rattle.ssq_shape.specs.Evaluation.{cell_at, is_null};
ghost use Rattle.ssq_meaning.specs.Totals.{counted, greater, lesser, summand, total_of, totals_of, with_row, with_row_from, with_value};
ghost use Rattle.ssq_meaning.specs.Fit.{IsFit};
ghost use Rattle.ssq_agg.specs.Fits.{AllFit, Fits};
ghost use Rattle.ssq_agg.specs.Readable.{IsFitTotal};

use ssq_meaning::Total;
use ssq_shape::{Aggregate, Function};
use ssq_value::{Value, order};
use std::alloc::{AllocError, Global};
use std::mem;

fn is_null(value: &Value) -> bool
    ensures { result ≡ is_null value.now }
{
    matches!(value, Value::Null)
}

fn summand(value: &Value) -> i64
    ensures { result ≡ summand value.now }
{
    match value {
        Value::Int(number) => *number,
        _ => 0,
    }
}

/// The number of values with this one, which does not count where it is NULL.
fn counted(count: u64, value: &Value) -> u64
    ensures { counted count value.now < 2 ^ 64 → result ≡ counted count value.now }
{
    if is_null(value) {
        count
    } else {
        count.saturating_add(1)
    }
}

/// The exact sum with one more value, where it has 128 bits.
fn added(sum: i128, value: &Value) -> i128
    ensures { FitsSigned w128 (sum +ℤ summand value.now) → result ≡ sum +ℤ summand value.now }
{
    sum.wrapping_add(i128::from(summand(value)))
}

/// Whether a value takes the place of the least so far.
#[tactic(auto, unfolding(ssq_meaning::specs::Totals::lesser))]
fn is_lesser(least: &Value, value: &Value) -> bool
    ensures { (if result then value.now else least.now) ≡ lesser least.now value.now }
{
    if is_null(value) {
        false
    } else {
        is_null(least) || order(least, value).is_gt()
    }
}

/// Whether a value takes the place of the greatest so far.
#[tactic(auto, unfolding(ssq_meaning::specs::Totals::greater))]
fn is_greater(greatest: &Value, value: &Value) -> bool
    ensures { (if result then value.now else greatest.now) ≡ greater greatest.now value.now }
{
    if is_null(value) {
        false
    } else {
        is_null(greatest) || order(value, greatest).is_gt()
    }
}

fn lesser_of(least: Value, value: &Value) -> Result<Value, AllocError>
    ensures value { IfOk result (λ own. own ≡ lesser least value.now) }
    ensures fit { IsFit least → IsFit value.now → IfOk result IsFit }
{
    if is_lesser(&least, value) {
        value.clone()
    } else {
        Ok(least)
    }
}

fn greater_of(greatest: Value, value: &Value) -> Result<Value, AllocError>
    ensures value { IfOk result (λ own. own ≡ greater greatest value.now) }
    ensures fit { IsFit greatest → IsFit value.now → IfOk result IsFit }
{
    if is_greater(&greatest, value) {
        value.clone()
    } else {
        Ok(greatest)
    }
}

/// The total with one more value, where the total's type holds it.
fn with_value(total: Total, value: &Value) -> Result<Total, AllocError>
    ensures total { Fits (with_value total value.now) → IfOk result (λ own. own ≡ with_value total value.now) }
    ensures fit { IsFitTotal total → IsFit value.now → IfOk result IsFitTotal }
{
    match total {
        Total::Count(count) => Ok(Total::Count(counted(count, value))),
        Total::Sum { count, sum } => Ok(Total::Sum {
            count: counted(count, value),
            sum: added(sum, value),
        }),
        Total::Least(least) => Ok(Total::Least(lesser_of(least, value)?)),
        Total::Greatest(greatest) => Ok(Total::Greatest(greater_of(greatest, value)?)),
    }
}

/// Takes one more value into a total, where the total's type holds it. After an `Err` the total is of no use.
pub(crate) fn add(total: &mut Total, value: &Value) -> Result<(), AllocError>
    ensures added { Fits (with_value total.old value.now) → OnOk result (total.new ≡ with_value total.old value.now) }
    ensures fit { IsFitTotal total.old → IsFit value.now → OnOk result (IsFitTotal total.new) }
{
    let own = mem::replace(total, Total::Count(0));
    *total = with_value(own, value)?;
    Ok(())
}

fn add_at(total: &mut Total, row: &[Value], at: usize) -> Result<(), AllocError>
    ensures added { Fits (with_value total.old (cell_at row.now at)) → OnOk result (total.new ≡ with_value total.old (cell_at row.now at)) }
    ensures fit { IsFitTotal total.old → All IsFit row.now → OnOk result (IsFitTotal total.new) }
{
    match row.get(at) {
        Some(value) => add(total, value),
        None => add(total, &Value::Null),
    }
}

#[tactic(auto, unfolding(ssq_meaning::specs::Totals::with_row_from))]
fn add_from(totals: &mut [Total], row: &[Value], at: usize) -> Result<(), AllocError>
    requires { at + length totals.old < 2 ^ 64 }
    ensures added { AllFit (with_row_from at totals.old row.now) → OnOk result (totals.new ≡ with_row_from at totals.old row.now) }
    ensures fit { AllByRecursion IsFitTotal totals.old → All IsFit row.now → OnOk result (AllByRecursion IsFitTotal totals.new) }
{
    let Some((first, rest)) = totals.split_first_mut() else {
        return Ok(());
    };
    add_at(first, row, at)?;
    add_from(rest, row, at + 1)
}

/// Takes one more row into the totals of its group, where their types hold them: for each aggregate the value of its argument. After an
/// `Err` the totals are of no use.
pub(crate) fn add_row(totals: &mut [Total], row: &[Value]) -> Result<(), AllocError>
    ensures added { AllFit (with_row totals.old row.now) → OnOk result (totals.new ≡ with_row totals.old row.now) }
    ensures fit { AllByRecursion IsFitTotal totals.old → All IsFit row.now → OnOk result (AllByRecursion IsFitTotal totals.new) }
{
    add_from(totals, row, 0)
}

/// The total of no value.
fn none_of(function: Function) -> Total
    ensures total { result ≡ total_of function [] }
    ensures fit { IsFitTotal result }
{
    match function {
        Function::Count => Total::Count(0),
        Function::Sum => Total::Sum { count: 0, sum: 0 },
        Function::Min => Total::Least(Value::Null),
        Function::Max => Total::Greatest(Value::Null),
    }
}

/// The totals of no row.
#[tactic(auto, unfolding(ssq_meaning::specs::Totals::totals_from))]
pub(crate) fn nothing(alloc: Global, aggregates: &[Aggregate]) -> Result<Vec<Total>, AllocError>
    ensures totals { IfOk result (λ totals. totals.items ≡ totals_of aggregates.now []) }
    ensures fit { IfOk result (λ totals. All IsFitTotal totals.items) }
{
    let mut totals = Vec::with_capacity(alloc, aggregates.len())?;
    for aggregate in aggregates {
        totals.push(none_of(aggregate.function))?;
    }
    Ok(totals)
}
