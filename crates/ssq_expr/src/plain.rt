//! What a query that keeps nothing does with a row.

ghost use Rattle.std.specs.Prelude.{All, IfOk, IfSome};
ghost use Rattle.ssq_time.specs.Time.{IsStampTime};
ghost use Rattle.ssq_value.specs.Kind.{IfTime};
ghost use Rattle.ssq_shape.specs.Plain.{passes, projected, shown};
ghost use Rattle.ssq_shape.specs.Fit.{IsFit};
ghost use Rattle.ssq_expr.specs.Answers.{Answers, itself};

use crate::evaluate::{eval, evaluate};
use crate::fault::EvalFault;
use crate::operands::comparison;
use crate::operators::{is_true, truth_in};
use ssq_shape::{Bound, Output, Typed, values_stay_fit};
use ssq_value::{Row, Value};
use std::alloc::{AllocError, Global};

/// Whether WHERE is TRUE on a row; without a WHERE each row passes.
pub fn passes(alloc: Global, filter: &Option<Typed>, row: &[Value]) -> Result<bool, EvalFault>
    ensures { Answers itself result (passes filter.now row.now) }
{
    let Some(condition) = filter else {
        return Ok(true);
    };
    if let Some(truth) = comparison(condition, row, &[]) {
        return Ok(is_true(truth));
    }
    let truth = truth_in(evaluate(alloc, condition, row, &[])?);
    Ok(truth == Some(true))
}

fn values_of(alloc: Global, outputs: &[Output], row: &[Value]) -> Result<Vec<Value>, EvalFault>
    ensures { Answers (λ values. values.items) result (projected outputs.now row.now) }
{
    let mut values = Vec::with_capacity(alloc, outputs.len())?;
    for output in outputs {
        let value = eval(alloc, &output.value, row)?;
        values.push(value).map_err(AllocError::from)?;
    }
    Ok(values)
}

/// The row that SELECT shows for a row. Its items are evaluated from the left.
pub(crate) fn project(alloc: Global, outputs: &[Output], row: &[Value]) -> Result<Row, EvalFault>
    ensures row { Answers itself result (projected outputs.now row.now) }
    // Its times are ones that can be printed, where each time of the row is.
    ensures years { All (IfTime IsStampTime) row.now → IfOk result (All (IfTime IsStampTime)) }
    // They are ones that a query can keep, where each value of the row is.
    ensures fit { All IsFit row.now → IfOk result (All IsFit) }
{
    values_stay_fit();
    let values = values_of(alloc, outputs, row)?;
    Ok(Row::from_vec(values))
}

/// The row that a query shows for a row of its stream: none where WHERE is not TRUE on it.
pub fn show(alloc: Global, bound: &Bound, row: &[Value]) -> Result<Option<Row>, EvalFault>
    ensures row { Answers itself result (shown bound.now row.now) }
    // Its times are ones that can be printed, where each time of the row is.
    ensures years { All (IfTime IsStampTime) row.now → IfOk result (λ shown. IfSome shown (All (IfTime IsStampTime))) }
    // They are ones that a query can keep, where each value of the row is.
    ensures fit { All IsFit row.now → IfOk result (λ shown. IfSome shown (All IsFit)) }
{
    if !passes(alloc, &bound.filter, row)? {
        return Ok(None);
    }
    let row = project(alloc, bound.outputs.as_slice(), row)?;
    Ok(Some(row))
}
