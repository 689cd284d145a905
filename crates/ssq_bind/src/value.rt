//! The typed expression that an expression is, and the aggregates in it.

ghost use Rattle.std.specs.Prelude.{◌≡◌, ◌++◌, length, Some, None, IfOk, OnOk};
ghost use Rattle.ssq_shape.specs.declared.bound.Function.TheVariants as function;
ghost use Rattle.ssq_shape.specs.declared.typed.Typed.TheVariants as constant;
ghost use Rattle.ssq_bind.specs.Value.{or_zero, window_value, column_value, unary_value, null_value, compared_value, arithmetic_value, shifted_value, binary_value, between_value, shift_by, shift_of, shifted_or, function_of, numbered, given, literal, value_of, aggregates_of, row_value};

use crate::context::{Context, is_window_column, key_index, row_index, spot_of};
use sqlite_items::Boxed;
use ssq_ast::{BinaryOp, ColumnRef, Expr, NullTest, UnaryOp};
use ssq_check::Within;
use ssq_shape::{Aggregate, Arithmetic, Comparison, Function, Typed};
use ssq_value::{Sequence, Value};
use std::alloc::{AllocError, Global};

/// The first where there is none, which is only in a query with a fault.
pub(crate) fn or_zero(index: Option<usize>) -> usize
    ensures { result ≡ or_zero index }
{
    match index {
        Some(index) => index,
        None => 0,
    }
}

/// A time, so many microseconds later.
#[tactic(auto, using(ssq_shape::specs::Boxes::boxes))]
fn shifted(time: Boxed<Typed>, by: i64) -> Typed
    ensures { result ≡ shifted_value time by }
{
    Typed::Shifted(time, by)
}

/// The start of a window, which is kept of it, or its end.
fn window_value(alloc: Global, size: i64, at: usize, name: &str) -> Result<Typed, AllocError>
    ensures { IfOk result (λ typed. typed ≡ window_value size at name.now) }
{
    if name == "window_end" {
        let start = Boxed::new(alloc, Typed::Column(at))?;
        Ok(shifted(start, size))
    } else {
        Ok(Typed::Column(at))
    }
}

pub(crate) fn column_value(
    alloc: Global,
    context: &Context,
    within: Within,
    column: &ColumnRef,
) -> Result<Typed, AllocError>
    ensures { IfOk result (λ typed. typed ≡ column_value context.now within column.now) }
{
    let scope = &context.scope;
    match within {
        Within::Row => Ok(Typed::Column(row_index(scope, spot_of(scope, column)))),
        Within::Group => {
            let at = or_zero(key_index(scope, column));
            if is_window_column(scope, column) {
                window_value(alloc, context.size, at, column.column.text.as_str())
            } else {
                Ok(Typed::Column(at))
            }
        }
    }
}

#[tactic(auto, using(ssq_shape::specs::Boxes::boxes))]
fn unary_value(op: UnaryOp, operand: Boxed<Typed>) -> Typed
    ensures { result ≡ unary_value op operand }
{
    match op {
        UnaryOp::Not => Typed::Not(operand),
        UnaryOp::Minus => Typed::Negated(operand),
    }
}

#[tactic(auto, using(ssq_shape::specs::Boxes::boxes))]
fn null_value(alloc: Global, test: NullTest, operand: Boxed<Typed>) -> Result<Typed, AllocError>
    ensures { IfOk result (λ typed. typed ≡ null_value test operand) }
{
    let is_null = Typed::IsNull(operand);
    match test {
        NullTest::Null => Ok(is_null),
        NullTest::NotNull => Ok(Typed::Not(Boxed::new(alloc, is_null)?)),
    }
}

#[tactic(auto, using(ssq_shape::specs::Boxes::boxes))]
fn compared(comparison: Comparison, a: Boxed<Typed>, b: Boxed<Typed>) -> Typed
    ensures { result ≡ compared_value comparison a b }
{
    Typed::Compared(comparison, a, b)
}

#[tactic(auto, using(ssq_shape::specs::Boxes::boxes))]
fn calculated(operation: Arithmetic, a: Boxed<Typed>, b: Boxed<Typed>) -> Typed
    ensures { result ≡ arithmetic_value operation a b }
{
    Typed::Arithmetic(operation, a, b)
}

/// An operator that makes no shift.
#[tactic(auto, using(ssq_shape::specs::Boxes::boxes))]
fn operated(op: BinaryOp, a: Boxed<Typed>, b: Boxed<Typed>) -> Typed
    ensures { result ≡ binary_value op a b }
{
    match op {
        BinaryOp::Or => Typed::Or(a, b),
        BinaryOp::And => Typed::And(a, b),
        BinaryOp::Equal => compared(Comparison::Equal, a, b),
        BinaryOp::NotEqual => compared(Comparison::NotEqual, a, b),
        BinaryOp::Less => compared(Comparison::Less, a, b),
        BinaryOp::AtMost => compared(Comparison::AtMost, a, b),
        BinaryOp::Greater => compared(Comparison::Greater, a, b),
        BinaryOp::AtLeast => compared(Comparison::AtLeast, a, b),
        BinaryOp::Add => calculated(Arithmetic::Plus, a, b),
        BinaryOp::Subtract => calculated(Arithmetic::Minus, a, b),
        BinaryOp::Concat => Typed::Joined(a, b),
        BinaryOp::Multiply => calculated(Arithmetic::Times, a, b),
        BinaryOp::Divide => calculated(Arithmetic::Quotient, a, b),
        BinaryOp::Remainder => calculated(Arithmetic::Remainder, a, b),
    }
}

/// An operator, or the shift that it is.
fn shifted_or(shift: Option<i64>, op: BinaryOp, left: Boxed<Typed>, right: Boxed<Typed>) -> Typed
    ensures { result ≡ shifted_or shift left (binary_value op left right) }
{
    match shift {
        Some(by) => shifted(left, by),
        None => operated(op, left, right),
    }
}

#[tactic(auto, using(ssq_shape::specs::Boxes::boxes))]
fn between_value(value: Boxed<Typed>, low: Boxed<Typed>, high: Boxed<Typed>) -> Typed
    ensures { result ≡ between_value value low high }
{
    Typed::Between(value, low, high)
}

fn shift_by(op: BinaryOp, span: i64) -> Option<i64>
    ensures { result ≡ shift_by op span }
{
    match op {
        BinaryOp::Add => Some(span),
        BinaryOp::Subtract => Some(span.wrapping_neg()),
        _ => None,
    }
}

/// By how much an operator shifts the time in front of it, where a span stands after it.
#[tactic(auto, using(ssq_ast::proofs::Boxes::boxes), unfolding(crate::specs::Value::shift_of))]
pub(crate) fn shift_of(op: BinaryOp, right: &Expr) -> Option<i64>
    ensures { result ≡ shift_of op right.now }
{
    match right {
        Expr::Interval { value, .. } => shift_by(op, value.micros),
        _ => None,
    }
}

fn function_of(function: ssq_ast::Function) -> Function
    ensures { result ≡ function_of function }
{
    match function {
        ssq_ast::Function::Count => Function::Count,
        ssq_ast::Function::Sum => Function::Sum,
        ssq_ast::Function::Min => Function::Min,
        ssq_ast::Function::Max => Function::Max,
    }
}

/// The number of an aggregate, once it stands after those that were found. On rows there is none.
fn numbered(
    within: Within,
    found: &mut Sequence<Aggregate>,
    aggregate: Aggregate,
) -> Result<Typed, AllocError>
    ensures value { IfOk result (λ typed. typed ≡ numbered within (length found.old)) }
    ensures found { OnOk result (found.new ≡ found.old ++ given within aggregate) }
{
    match within {
        Within::Row => {
            drop(aggregate);
            Ok(Typed::Constant(Value::Null))
        }
        Within::Group => {
            let number = found.len();
            found.push(aggregate)?;
            Ok(Typed::Aggregate(number))
        }
    }
}

/// The number of `COUNT(*)`.
fn rows_counted(within: Within, found: &mut Sequence<Aggregate>) -> Result<Typed, AllocError>
    ensures value { IfOk result (λ typed. typed ≡ numbered within (length found.old)) }
    ensures found { OnOk result (found.new ≡ found.old ++ given within (record { function = function.Count; argument = None })) }
{
    let rows = Aggregate {
        function: Function::Count,
        argument: None,
    };
    numbered(within, found, rows)
}

/// The value that an expression writes out, NULL where it writes out none.
#[tactic(auto, using(ssq_ast::proofs::Boxes::boxes), unfolding(crate::specs::Value::literal))]
fn literal(value: &Expr) -> Result<Typed, AllocError>
    ensures { IfOk result (λ typed. typed ≡ constant.Constant (literal value.now)) }
{
    let literal = match value {
        Expr::Number { value, .. } => Value::Int(*value),
        Expr::Text { value, .. } => Value::Text(value.clone()?),
        Expr::Truth { value, .. } => Value::Truth(*value),
        Expr::Timestamp { value, .. } => Value::Time(value.micros),
        _ => Value::Null,
    };
    Ok(Typed::Constant(literal))
}

/// The expression whose names are bound. Its aggregates go after those that were found in front of it.
#[cycle(bound)]
#[tactic(auto, using(ssq_ast::proofs::Boxes::boxes), unfolding(crate::specs::Value::value_of, crate::specs::Value::aggregates_of))]
pub(crate) fn value_of(
    alloc: Global,
    context: &Context,
    within: Within,
    found: &mut Sequence<Aggregate>,
    value: &Expr,
) -> Result<Typed, AllocError>
    ensures value { IfOk result (λ typed. typed ≡ value_of context.now within (length found.old) value.now) }
    ensures found { OnOk result (found.new ≡ found.old ++ aggregates_of context.now within value.now) }
{
    match value {
        Expr::Column { value } => column_value(alloc, context, within, value),
        Expr::CountRows { .. } => rows_counted(within, found),
        Expr::Aggregate {
            function,
            argument,
            ..
        } => aggregate_of(alloc, context, within, found, *function, argument.get()),
        Expr::Unary { op, operand, .. } => {
            let operand = operand_of(alloc, context, within, found, operand.get())?;
            Ok(unary_value(*op, operand))
        }
        Expr::IsNull { operand, test, .. } => {
            let operand = operand_of(alloc, context, within, found, operand.get())?;
            null_value(alloc, *test, operand)
        }
        Expr::Binary {
            left,
            op,
            right,
            ..
        } => {
            let right = right.get();
            let a = operand_of(alloc, context, within, found, left.get())?;
            let b = operand_of(alloc, context, within, found, right)?;
            Ok(shifted_or(shift_of(*op, right), *op, a, b))
        }
        Expr::Between {
            operand,
            low,
            high,
            ..
        } => {
            let tested = operand_of(alloc, context, within, found, operand.get())?;
            let least = operand_of(alloc, context, within, found, low.get())?;
            let most = operand_of(alloc, context, within, found, high.get())?;
            Ok(between_value(tested, least, most))
        }
        _ => literal(value),
    }
}

/// The number of an aggregate of an argument on rows.
#[cycle(bound)]
fn aggregate_of(
    alloc: Global,
    context: &Context,
    within: Within,
    found: &mut Sequence<Aggregate>,
    function: ssq_ast::Function,
    value: &Expr,
) -> Result<Typed, AllocError>
    ensures value { IfOk result (λ typed. typed ≡ numbered within (length found.old)) }
    ensures found { OnOk result (found.new ≡ found.old ++ given within (record { function = function_of function; argument = Some (row_value context.now value.now) })) }
{
    let argument = row_value(alloc, context, value)?;
    let aggregate = Aggregate {
        function: function_of(function),
        argument: Some(argument),
    };
    numbered(within, found, aggregate)
}

/// As [`value_of`], in a box.
#[cycle(bound)]
fn operand_of(
    alloc: Global,
    context: &Context,
    within: Within,
    found: &mut Sequence<Aggregate>,
    value: &Expr,
) -> Result<Boxed<Typed>, AllocError>
    ensures value { IfOk result (λ typed. typed ≡ value_of context.now within (length found.old) value.now) }
    ensures found { OnOk result (found.new ≡ found.old ++ aggregates_of context.now within value.now) }
{
    let typed = value_of(alloc, context, within, found, value)?;
    Boxed::new(alloc, typed)
}

/// The expression on rows.
#[cycle(bound)]
pub(crate) fn row_value(alloc: Global, context: &Context, value: &Expr) -> Result<Typed, AllocError>
    ensures { IfOk result (λ typed. typed ≡ row_value context.now value.now) }
{
    let mut none = Sequence::new(alloc);
    value_of(alloc, context, Within::Row, &mut none, value)
}
