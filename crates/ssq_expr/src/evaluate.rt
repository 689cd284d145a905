//! The evaluation of an expression on a row, and on a group.

ghost use Rattle.std.specs.Prelude.{◌≡◌, All, IfOk, IfSome};
ghost use Rattle.std.specs.Cow.{cow_value};
ghost use Rattle.ssq_time.specs.Time.{IsStampTime};
ghost use Rattle.ssq_value.specs.Kind.{IfTime};
ghost use Rattle.ssq_shape.specs.Evaluation.{aggregate_at, cell_at, constant, evaluated, evaluated_with};
ghost use Rattle.ssq_shape.specs.Fit.{IsFit};
ghost use Rattle.ssq_expr.specs.Answers.{Answers, itself};

use crate::fault::EvalFault;
use crate::operands::{constant, operand, operation};
use crate::operators::{
    arithmetic, both, compared, either, is_null, joined, negated, negation, number_in, shifted,
    time_in, truth_in, truth_value,
};
use ssq_shape::{Comparison, Typed, values_stay_fit};
use ssq_value::Value;
use std::alloc::Global;
use std::borrow::Cow;

fn cell_at<'a>(row: &'a [Value], at: usize) -> Cow<'a, Value>
    ensures { cow_value result ≡ cell_at row.now at }
{
    match row.get(at) {
        Some(value) => Cow::Borrowed(value),
        None => Cow::Owned(Value::Null),
    }
}

fn aggregate_at<'a>(aggregates: &'a [Option<Value>], at: usize) -> Result<Cow<'a, Value>, EvalFault>
    ensures { Answers cow_value result (aggregate_at aggregates.now at) }
{
    match aggregates.get(at) {
        Some(Some(value)) => Ok(Cow::Borrowed(value)),
        Some(None) => Err(EvalFault::Overflow),
        None => Ok(Cow::Owned(Value::Null)),
    }
}

fn constant_in<'a>(value: &'a Value) -> Result<Cow<'a, Value>, EvalFault>
    ensures { Answers cow_value result (constant value.now) }
{
    Ok(Cow::Borrowed(constant(value)?))
}

/// The value of an expression, which is borrowed where it stands in the row, in the aggregates or in the query. Most
/// operands are columns and constants, and most operators have these alone: they take no frame with room for each operator.
#[cycle(evaluation)]
#[tactic(auto, using(ssq_shape::specs::Boxes::boxes), unfolding(ssq_shape::specs::Evaluation::evaluated_with))]
pub(crate) fn evaluate<'a>(
    alloc: Global,
    expression: &'a Typed,
    row: &'a [Value],
    aggregates: &'a [Option<Value>],
) -> Result<Cow<'a, Value>, EvalFault>
    ensures { Answers cow_value result (evaluated_with aggregates.now expression.now row.now) }
{
    match expression {
        Typed::Column(at) => Ok(cell_at(row, *at)),
        Typed::Aggregate(at) => aggregate_at(aggregates, *at),
        Typed::Constant(value) => constant_in(value),
        _ => match operation(expression, row, aggregates) {
            Some(result) => Ok(Cow::Owned(result?)),
            None => operated(alloc, expression, row, aggregates),
        },
    }
}

/// As [`evaluate`], for any expression.
#[inline(never)]
#[cycle(evaluation)]
#[tactic(auto, using(ssq_shape::specs::Boxes::boxes), unfolding(ssq_shape::specs::Evaluation::evaluated_with))]
fn operated<'a>(
    alloc: Global,
    expression: &'a Typed,
    row: &'a [Value],
    aggregates: &'a [Option<Value>],
) -> Result<Cow<'a, Value>, EvalFault>
    ensures { Answers cow_value result (evaluated_with aggregates.now expression.now row.now) }
{
    match expression {
        Typed::Column(at) => Ok(cell_at(row, *at)),
        Typed::Aggregate(at) => aggregate_at(aggregates, *at),
        Typed::Constant(value) => constant_in(value),
        Typed::Negated(a) => {
            let number = number_in(evaluate(alloc, a.get(), row, aggregates)?);
            Ok(Cow::Owned(negated(number)?))
        }
        Typed::Not(a) => {
            let truth = truth_in(evaluate(alloc, a.get(), row, aggregates)?);
            Ok(Cow::Owned(truth_value(negation(truth))))
        }
        Typed::IsNull(a) => {
            let absent = is_null(evaluate(alloc, a.get(), row, aggregates)?);
            Ok(Cow::Owned(Value::Truth(absent)))
        }
        Typed::Arithmetic(op, a, b) => {
            let left = number_in(evaluate(alloc, a.get(), row, aggregates)?);
            let right = number_in(evaluate(alloc, b.get(), row, aggregates)?);
            Ok(Cow::Owned(arithmetic(*op, left, right)?))
        }
        Typed::Shifted(a, by) => {
            let time = time_in(evaluate(alloc, a.get(), row, aggregates)?);
            Ok(Cow::Owned(shifted(time, *by)?))
        }
        Typed::Joined(a, b) => {
            let left = evaluate(alloc, a.get(), row, aggregates)?;
            let right = evaluate(alloc, b.get(), row, aggregates)?;
            Ok(Cow::Owned(joined(alloc, left, right)?))
        }
        Typed::Compared(comparison, a, b) => {
            let left = evaluate(alloc, a.get(), row, aggregates)?;
            let right = evaluate(alloc, b.get(), row, aggregates)?;
            Ok(Cow::Owned(truth_value(compared(*comparison, &left, right))))
        }
        Typed::Between(a, b, c) => {
            let value = evaluate(alloc, a.get(), row, aggregates)?;
            let least = evaluate(alloc, b.get(), row, aggregates)?;
            let above = compared(Comparison::AtLeast, &value, least);
            if above == Some(false) {
                return Ok(Cow::Owned(Value::Truth(false)));
            }
            let most = evaluate(alloc, c.get(), row, aggregates)?;
            let below = compared(Comparison::AtMost, &value, most);
            Ok(Cow::Owned(truth_value(both(above, below))))
        }
        Typed::And(a, b) => {
            let left = truth_in(evaluate(alloc, a.get(), row, aggregates)?);
            if left == Some(false) {
                return Ok(Cow::Owned(Value::Truth(false)));
            }
            let right = truth_in(evaluate(alloc, b.get(), row, aggregates)?);
            Ok(Cow::Owned(truth_value(both(left, right))))
        }
        Typed::Or(a, b) => {
            let left = truth_in(evaluate(alloc, a.get(), row, aggregates)?);
            if left == Some(true) {
                return Ok(Cow::Owned(Value::Truth(true)));
            }
            let right = truth_in(evaluate(alloc, b.get(), row, aggregates)?);
            Ok(Cow::Owned(truth_value(either(left, right))))
        }
    }
}

/// As [`evaluate`], in memory of its own. What most items of SELECT are, a column or an operator on two operands, is made in place.
fn value_of(
    alloc: Global,
    expression: &Typed,
    row: &[Value],
    aggregates: &[Option<Value>],
) -> Result<Value, EvalFault>
    ensures { Answers itself result (evaluated_with aggregates.now expression.now row.now) }
{
    if let Some(value) = operand(expression, row, aggregates) {
        return Ok(value.clone()?);
    }
    if let Some(result) = operation(expression, row, aggregates) {
        return result;
    }
    let value = operated(alloc, expression, row, aggregates)?;
    Ok(value.into_owned()?)
}

/// The value of an expression on a row. Its caller gives a row of the types with which the expression was bound; in
/// any other an operand of a wrong type counts as NULL.
pub fn eval(alloc: Global, expression: &Typed, row: &[Value]) -> Result<Value, EvalFault>
    ensures value { Answers itself result (evaluated expression.now row.now) }
    // A time is one that can be printed, where each time of the row is.
    ensures years { All (IfTime IsStampTime) row.now → IfOk result (IfTime IsStampTime) }
    // It is one that a query can keep, where each value of the row is.
    ensures fit { All IsFit row.now → IfOk result IsFit }
{
    values_stay_fit();
    value_of(alloc, expression, row, &[])
}

/// The value of an expression on a group: its keys, and its aggregates by their numbers. An aggregate is none where it is
/// not in 64 bits, and overflows where it is evaluated. The caller gives keys and aggregates of the types with which the
/// expression was bound.
pub fn eval_group(
    alloc: Global,
    expression: &Typed,
    keys: &[Value],
    aggregates: &[Option<Value>],
) -> Result<Value, EvalFault>
    ensures value { Answers itself result (evaluated_with aggregates.now expression.now keys.now) }
    // A time is one that can be printed, where each time of the keys and of the aggregates is.
    ensures years { All (λ aggregate. IfSome aggregate (IfTime IsStampTime)) aggregates.now → All (IfTime IsStampTime) keys.now → IfOk result (IfTime IsStampTime) }
{
    value_of(alloc, expression, keys, aggregates)
}
