//! What the operators give for values.

ghost use Rattle.std.specs.Prelude.{◌≡◌};
ghost use Rattle.std.specs.Cow.{cow_value};
ghost use Rattle.ssq_shape.specs.Evaluation.{number_in, time_in, truth_in, truth_value, is_true, is_null, timestamp, negated, calculated, arithmetic, shifted, joined, text_in, holds, compared, negation, both, either};
ghost use Rattle.ssq_expr.specs.Answers.{Answers, itself};

use crate::fault::EvalFault;
use ssq_shape::{Arithmetic, Comparison};
use ssq_time::is_stamp_time;
use ssq_value::{Text, Value, order};
use std::alloc::Global;
use std::borrow::Cow;
use std::cmp::Ordering;

/// The most bytes of a text that `||` makes.
pub(crate) const LONGEST: usize = 1_048_576;

/// The number that a value is, if it is one.
pub(crate) fn number_of(value: &Value) -> Option<i64>
    ensures { result ≡ number_in value.now }
{
    match value {
        Value::Int(number) => Some(*number),
        _ => None,
    }
}

pub(crate) fn number_in(value: Cow<Value>) -> Option<i64>
    ensures { result ≡ number_in (cow_value value.entry) }
{
    number_of(&value)
}

fn time_of(value: &Value) -> Option<i64>
    ensures { result ≡ time_in value.now }
{
    match value {
        Value::Time(time) => Some(*time),
        _ => None,
    }
}

pub(crate) fn time_in(value: Cow<Value>) -> Option<i64>
    ensures { result ≡ time_in (cow_value value.entry) }
{
    time_of(&value)
}

fn truth_of(value: &Value) -> Option<bool>
    ensures { result ≡ truth_in value.now }
{
    match value {
        Value::Truth(truth) => Some(*truth),
        _ => None,
    }
}

pub(crate) fn truth_in(value: Cow<Value>) -> Option<bool>
    ensures { result ≡ truth_in (cow_value value.entry) }
{
    truth_of(&value)
}

pub(crate) fn truth_value(truth: Option<bool>) -> Value
    ensures { result ≡ truth_value truth }
{
    match truth {
        Some(truth) => Value::Truth(truth),
        None => Value::Null,
    }
}

/// Whether a truth of three is TRUE.
pub(crate) fn is_true(truth: Option<bool>) -> bool
    ensures { result ≡ is_true (truth_value truth) }
{
    match truth {
        Some(truth) => truth,
        None => false,
    }
}

fn is_nothing(value: &Value) -> bool
    ensures { result ≡ is_null value.now }
{
    matches!(value, Value::Null)
}

pub(crate) fn is_null(value: Cow<Value>) -> bool
    ensures { result ≡ is_null (cow_value value.entry) }
{
    is_nothing(&value)
}

fn timestamp(time: i64) -> Result<Value, EvalFault>
    ensures { Answers itself result (timestamp time) }
{
    if is_stamp_time(time) {
        Ok(Value::Time(time))
    } else {
        Err(EvalFault::Overflow)
    }
}

pub(crate) fn negated(number: Option<i64>) -> Result<Value, EvalFault>
    ensures { Answers itself result (negated number) }
{
    let Some(number) = number else {
        return Ok(Value::Null);
    };
    match number.checked_neg() {
        Some(number) => Ok(Value::Int(number)),
        None => Err(EvalFault::Overflow),
    }
}

fn quotient(a: i64, b: i64) -> Result<Value, EvalFault>
    ensures { Answers itself result (calculated Arithmetic.Quotient a b) }
{
    if b == 0 {
        return Ok(Value::Null);
    }
    match a.checked_div(b) {
        Some(number) => Ok(Value::Int(number)),
        None => Err(EvalFault::Overflow),
    }
}

fn remainder(a: i64, b: i64) -> Value
    ensures { calculated Arithmetic.Remainder a b ≡ Ok result }
{
    if b == 0 {
        Value::Null
    } else {
        Value::Int(a.wrapping_rem(b))
    }
}

fn calculated(op: Arithmetic, a: i64, b: i64) -> Result<Value, EvalFault>
    ensures { Answers itself result (calculated op a b) }
{
    let number = match op {
        Arithmetic::Plus => a.checked_add(b),
        Arithmetic::Minus => a.checked_sub(b),
        Arithmetic::Times => a.checked_mul(b),
        Arithmetic::Quotient => return quotient(a, b),
        Arithmetic::Remainder => return Ok(remainder(a, b)),
    };
    match number {
        Some(number) => Ok(Value::Int(number)),
        None => Err(EvalFault::Overflow),
    }
}

pub(crate) fn arithmetic(
    op: Arithmetic,
    left: Option<i64>,
    right: Option<i64>,
) -> Result<Value, EvalFault>
    ensures { Answers itself result (arithmetic op left right) }
{
    match (left, right) {
        (Some(a), Some(b)) => calculated(op, a, b),
        _ => Ok(Value::Null),
    }
}

pub(crate) fn shifted(time: Option<i64>, by: i64) -> Result<Value, EvalFault>
    ensures { Answers itself result (shifted time by) }
{
    let Some(time) = time else {
        return Ok(Value::Null);
    };
    match time.checked_add(by) {
        Some(time) => timestamp(time),
        None => Err(EvalFault::Overflow),
    }
}

fn together(alloc: Global, a: &str, b: &str) -> Result<Value, EvalFault>
    ensures { Answers itself result (joined (Some a.now) (Some b.now)) }
{
    if a.len() > LONGEST || b.len() > LONGEST - a.len() {
        return Err(EvalFault::Overflow);
    }
    let mut text = String::with_capacity(alloc, a.len() + b.len())?;
    text.push_str(a)?;
    text.push_str(b)?;
    Ok(Value::Text(Text::from_string(text)))
}

fn joined_values(alloc: Global, left: &Value, right: &Value) -> Result<Value, EvalFault>
    ensures { Answers itself result (joined (text_in left.now) (text_in right.now)) }
{
    match (left, right) {
        (Value::Text(a), Value::Text(b)) => together(alloc, a.as_str(), b.as_str()),
        _ => Ok(Value::Null),
    }
}

pub(crate) fn joined(alloc: Global, left: Cow<Value>, right: Cow<Value>) -> Result<Value, EvalFault>
    ensures { Answers itself result (joined (text_in (cow_value left.entry)) (text_in (cow_value right.entry))) }
{
    joined_values(alloc, &left, &right)
}

fn holds(comparison: Comparison, order: Ordering) -> bool
    ensures { result ≡ holds comparison order }
{
    match comparison {
        Comparison::Equal => order.is_eq(),
        Comparison::NotEqual => order.is_ne(),
        Comparison::Less => order.is_lt(),
        Comparison::AtMost => order.is_le(),
        Comparison::Greater => order.is_gt(),
        Comparison::AtLeast => order.is_ge(),
    }
}

pub(crate) fn compared_values(comparison: Comparison, left: &Value, right: &Value) -> Option<bool>
    ensures { result ≡ compared comparison left.now right.now }
{
    if is_nothing(left) || is_nothing(right) {
        None
    } else {
        Some(holds(comparison, order(left, right)))
    }
}

pub(crate) fn compared(comparison: Comparison, left: &Cow<Value>, right: Cow<Value>) -> Option<bool>
    ensures { result ≡ compared comparison (cow_value left.now) (cow_value right.entry) }
{
    compared_values(comparison, left, &right)
}

pub(crate) fn negation(truth: Option<bool>) -> Option<bool>
    ensures { result ≡ negation truth }
{
    match truth {
        Some(truth) => Some(!truth),
        None => None,
    }
}

pub(crate) fn both(left: Option<bool>, right: Option<bool>) -> Option<bool>
    ensures { result ≡ both left right }
{
    match (left, right) {
        (Some(true), _) => right,
        (Some(false), _) => Some(false),
        (None, Some(false)) => Some(false),
        _ => None,
    }
}

pub(crate) fn either(left: Option<bool>, right: Option<bool>) -> Option<bool>
    ensures { result ≡ either left right }
{
    match (left, right) {
        (Some(true), _) => Some(true),
        (Some(false), _) => right,
        (None, Some(true)) => Some(true),
        _ => None,
    }
}
