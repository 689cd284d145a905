//! Operands that stand in a row, among aggregates or in the query, and operators on two of these: what most conditions and
//! items of SELECT are. They are made in place, with no recursion and no copy of what is only compared.

ghost use Rattle.std.specs.Prelude.{◌≡◌, IfSome, Ok as OkOf};
ghost use Rattle.ssq_value.specs.declared.value.Value.TheVariants.{Int as IntOf, Text as TextOf};
ghost use Rattle.ssq_shape.specs.Evaluation.{constant, evaluated_with, truth_value};
ghost use Rattle.ssq_expr.specs.Answers.{Answers, itself};

use crate::fault::EvalFault;
use crate::operators::{LONGEST, arithmetic, compared_values, number_of, truth_value};
use sqlite_items::Boxed;
use ssq_shape::Typed;
use ssq_time::is_stamp_time;
use ssq_value::{Text, Value};

/// A text of at most 1,048,576 bytes.
fn fitting_text<'a>(value: &'a Value, text: &Text) -> Result<&'a Value, EvalFault>
    requires { value.now ≡ TextOf text.now }
    ensures { Answers (λ same. same.now) result (constant value.now) }
{
    if text.as_bytes().len() <= LONGEST {
        Ok(value)
    } else {
        Err(EvalFault::Overflow)
    }
}

/// Each number has 64 bits.
fn number_fits(number: i64)
    ensures { constant (IntOf number) ≡ OkOf (IntOf number) }
{}

/// A constant, which is itself where it is in its type's range.
pub(crate) fn constant<'a>(value: &'a Value) -> Result<&'a Value, EvalFault>
    ensures { Answers (λ same. same.now) result (constant value.now) }
{
    match value {
        Value::Time(time) => {
            if is_stamp_time(*time) {
                Ok(value)
            } else {
                Err(EvalFault::Overflow)
            }
        }
        Value::Text(text) => fitting_text(value, text),
        Value::Int(number) => {
            number_fits(*number);
            Ok(value)
        }
        Value::Null | Value::Truth(_) => Ok(value),
    }
}

/// The value of a column, of an aggregate or of a constant, where there is one. It is none of an operator, which is not evaluated here.
#[tactic(auto, unfolding(ssq_shape::specs::Evaluation::evaluated_with))]
pub(crate) fn operand<'a>(
    expression: &'a Typed,
    row: &'a [Value],
    aggregates: &'a [Option<Value>],
) -> Option<&'a Value>
    ensures { IfSome result (λ value. evaluated_with aggregates.now expression.now row.now ≡ OkOf value.now) }
{
    match expression {
        Typed::Column(at) => Some(row.get(*at)?),
        Typed::Aggregate(at) => match aggregates.get(*at) {
            Some(Some(value)) => Some(value),
            _ => None,
        },
        Typed::Constant(value) => match constant(value) {
            Ok(value) => Some(value),
            Err(_) => None,
        },
        _ => None,
    }
}

/// Both operands of an operator, where there are both.
fn both_operands<'a>(
    a: &'a Boxed<Typed>,
    b: &'a Boxed<Typed>,
    row: &'a [Value],
    aggregates: &'a [Option<Value>],
) -> Option<(&'a Value, &'a Value)>
    ensures left { IfSome result (λ both. evaluated_with aggregates.now a.now row.now ≡ OkOf both.0.now) }
    ensures right { IfSome result (λ both. evaluated_with aggregates.now b.now row.now ≡ OkOf both.1.now) }
{
    let left = operand(a.get(), row, aggregates)?;
    let right = operand(b.get(), row, aggregates)?;
    Some((left, right))
}

/// The truth of a comparison of two operands. It is none of any other expression.
pub(crate) fn comparison(
    expression: &Typed,
    row: &[Value],
    aggregates: &[Option<Value>],
) -> Option<Option<bool>>
    ensures { IfSome result (λ truth. evaluated_with aggregates.now expression.now row.now ≡ OkOf (truth_value truth)) }
{
    match expression {
        Typed::Compared(comparison, a, b) => {
            let (left, right) = both_operands(a, b, row, aggregates)?;
            Some(compared_values(*comparison, left, right))
        }
        _ => None,
    }
}

/// What an operator gives for the numbers of two operands. It is none of any other expression.
fn calculation(
    expression: &Typed,
    row: &[Value],
    aggregates: &[Option<Value>],
) -> Option<Result<Value, EvalFault>>
    ensures { IfSome result (λ answer. Answers itself answer (evaluated_with aggregates.now expression.now row.now)) }
{
    match expression {
        Typed::Arithmetic(op, a, b) => {
            let (left, right) = both_operands(a, b, row, aggregates)?;
            Some(arithmetic(*op, number_of(left), number_of(right)))
        }
        _ => None,
    }
}

/// What an operator gives for two operands, where it compares them or calculates with them. It is none of any other expression.
pub(crate) fn operation(
    expression: &Typed,
    row: &[Value],
    aggregates: &[Option<Value>],
) -> Option<Result<Value, EvalFault>>
    ensures { IfSome result (λ answer. Answers itself answer (evaluated_with aggregates.now expression.now row.now)) }
{
    match comparison(expression, row, aggregates) {
        Some(truth) => Some(Ok(truth_value(truth))),
        None => calculation(expression, row, aggregates),
    }
}
