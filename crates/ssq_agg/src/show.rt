//! What a group shows.

ghost use Rattle.std.specs.Prelude.{◌≡◌, All, IfOk, IfSome};
ghost use Rattle.ssq_time.specs.Time.{IsStampTime};
ghost use Rattle.ssq_value.specs.Kind.{IfTime};
ghost use Rattle.ssq_expr.specs.Answers.{Answers, itself};
ghost use Rattle.ssq_meaning.specs.Totals.{fitting, value_of, values_of_totals};
ghost use Rattle.ssq_meaning.specs.Fit.{IsFit};
ghost use Rattle.ssq_meaning.specs.Group.{group_items, passes_having, group_row};
ghost use Rattle.ssq_agg.specs.Readable.{IsFitTotal};

use ssq_expr::{EvalFault, eval_group};
use ssq_meaning::Total;
use ssq_shape::{Bound, Grouping, Output, Typed};
use ssq_value::{Row, Value};
use std::alloc::{AllocError, Global};

/// A number as a value, where it has 64 bits.
fn fitting(number: i128) -> Option<Value>
    ensures { result ≡ fitting number }
{
    match i64::try_from(number) {
        Ok(number) => Some(Value::Int(number)),
        Err(_) => None,
    }
}

/// The value that an aggregate has; there is none of a number outside 64 bits.
fn value_of(total: &Total) -> Result<Option<Value>, AllocError>
    requires { IsFitTotal total.now }
    ensures value { IfOk result (λ value. value ≡ value_of total.now) }
    ensures years { IfOk result (λ value. IfSome value (IfTime IsStampTime)) }
{
    match total {
        Total::Count(count) => Ok(fitting(i128::from(*count))),
        Total::Sum { count: 0, .. } => Ok(Some(Value::Null)),
        Total::Sum { sum, .. } => Ok(fitting(*sum)),
        Total::Least(value) | Total::Greatest(value) => Ok(Some(value.clone()?)),
    }
}

fn values_of(alloc: Global, totals: &[Total]) -> Result<Vec<Option<Value>>, AllocError>
    requires { All IsFitTotal totals.now }
    ensures values { IfOk result (λ values. values.items ≡ values_of_totals totals.now) }
    ensures years { IfOk result (λ values. All (λ value. IfSome value (IfTime IsStampTime)) values.items) }
{
    let mut values = Vec::with_capacity(alloc, totals.len())?;
    for total in totals {
        values.push(value_of(total)?)?;
    }
    Ok(values)
}

/// Whether HAVING is TRUE on a group; without HAVING each group passes.
fn passes(
    alloc: Global,
    having: &Option<Typed>,
    key: &[Value],
    aggregates: &[Option<Value>],
) -> Result<bool, EvalFault>
    ensures { Answers itself result (passes_having having.now key.now aggregates.now) }
{
    let Some(condition) = having else {
        return Ok(true);
    };
    let value = eval_group(alloc, condition, key, aggregates)?;
    Ok(matches!(value, Value::Truth(true)))
}

#[tactic(auto, unfolding(ssq_meaning::specs::Group::group_items))]
fn items_of(
    alloc: Global,
    outputs: &[Output],
    key: &[Value],
    aggregates: &[Option<Value>],
) -> Result<Vec<Value>, EvalFault>
    requires key { All (IfTime IsStampTime) key.now }
    requires aggregates { All (λ value. IfSome value (IfTime IsStampTime)) aggregates.now }
    ensures items { Answers (λ values. values.items) result (group_items outputs.now key.now aggregates.now) }
    ensures years { IfOk result (λ values. All (IfTime IsStampTime) values.items) }
{
    let mut values = Vec::with_capacity(alloc, outputs.len())?;
    for output in outputs {
        let value = eval_group(alloc, &output.value, key, aggregates)?;
        values.push(value).map_err(AllocError::from)?;
    }
    Ok(values)
}

/// The row that a group shows: none where HAVING is not TRUE on it. Its times can be printed.
#[tactic(auto, unfolding(ssq_meaning::specs::Group::group_row))]
pub(crate) fn show(
    alloc: Global,
    bound: &Bound,
    grouping: &Grouping,
    key: &[Value],
    totals: &[Total],
) -> Result<Option<Row>, EvalFault>
    requires key { All IsFit key.now }
    requires totals { All IsFitTotal totals.now }
    ensures row { Answers itself result (group_row bound.now grouping.now key.now totals.now) }
    ensures years { IfOk result (λ row. IfSome row (All (IfTime IsStampTime))) }
{
    let aggregates = values_of(alloc, totals)?;
    if !passes(alloc, &grouping.having, key, aggregates.as_slice())? {
        return Ok(None);
    }
    let items = items_of(alloc, bound.outputs.as_slice(), key, aggregates.as_slice())?;
    Ok(Some(Row::from_vec(items)))
}
