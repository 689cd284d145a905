//! The type of an expression, or the first fault in it.

ghost use Rattle.std.specs.Prelude.{◌≡◌};
ghost use Rattle.ssq_check.specs.Fault.{both, Answers, FirstOf};
ghost use Rattle.ssq_check.specs.Rules.{operands_of, operator_kind, is_minus, is_nonzero, is_divisor, divides, unary_kind, aggregate_kind, is_sum, is_interval, type_of, kind};
ghost use Rattle.ssq_check.specs.Broken.{FaultsIn};
ghost use Rattle.ssq_check.specs.Lists.{fault_in};
ghost use Rattle.ssq_check.specs.Checked.{only_here, one_or, unary_checked, null_checked, aggregate_checked, divided, first_of, binary_checked, between_checked, is_time, is_shifted, checked};

use crate::fault::{BindFault, Cause, both, earlier};
use crate::scope::{Scope, Within, column_kind};
use ssq_ast::{BinaryOp, Expr, Function, UnaryOp};
use ssq_value::ColType;

/// What an operator asks of its two operands.
#[derive(Clone, Copy)]
pub enum Asks {
    /// Truth values, for a truth value.
    Truths,
    /// Values of one type, for a truth value.
    Alike,
    /// Numbers, for a number.
    Numbers,
    /// Texts, for a text.
    Texts,
}

fn operands_of(op: BinaryOp) -> Asks
    ensures { result ≡ operands_of op }
{
    match op {
        BinaryOp::Or => Asks::Truths,
        BinaryOp::And => Asks::Truths,
        BinaryOp::Equal => Asks::Alike,
        BinaryOp::NotEqual => Asks::Alike,
        BinaryOp::Less => Asks::Alike,
        BinaryOp::AtMost => Asks::Alike,
        BinaryOp::Greater => Asks::Alike,
        BinaryOp::AtLeast => Asks::Alike,
        BinaryOp::Add => Asks::Numbers,
        BinaryOp::Subtract => Asks::Numbers,
        BinaryOp::Concat => Asks::Texts,
        BinaryOp::Multiply => Asks::Numbers,
        BinaryOp::Divide => Asks::Numbers,
        BinaryOp::Remainder => Asks::Numbers,
    }
}

fn operator_kind(asks: Asks, left: ColType, right: ColType) -> Option<ColType>
    ensures { result ≡ operator_kind asks left right }
{
    match asks {
        Asks::Truths => match (left, right) {
            (ColType::Bool, ColType::Bool) => Some(ColType::Bool),
            _ => None,
        },
        Asks::Alike => {
            if left == right {
                Some(ColType::Bool)
            } else {
                None
            }
        }
        Asks::Numbers => match (left, right) {
            (ColType::Bigint, ColType::Bigint) => Some(ColType::Bigint),
            _ => None,
        },
        Asks::Texts => match (left, right) {
            (ColType::Str, ColType::Str) => Some(ColType::Str),
            _ => None,
        },
    }
}

fn unary_kind(op: UnaryOp, operand: ColType) -> Option<ColType>
    ensures { result ≡ unary_kind op operand }
{
    match (op, operand) {
        (UnaryOp::Not, ColType::Bool) => Some(ColType::Bool),
        (UnaryOp::Minus, ColType::Bigint) => Some(ColType::Bigint),
        _ => None,
    }
}

fn aggregate_kind(function: Function, argument: ColType) -> Option<ColType>
    ensures { result ≡ aggregate_kind function argument }
{
    match function {
        Function::Count => Some(ColType::Bigint),
        Function::Sum => match argument {
            ColType::Bigint => Some(ColType::Bigint),
            _ => None,
        },
        Function::Min => Some(argument),
        Function::Max => Some(argument),
    }
}

fn is_nonzero(value: &Expr) -> bool
    ensures { result ≡ is_nonzero value.now }
{
    match value {
        Expr::Number { value, .. } => *value != 0,
        _ => false,
    }
}

fn is_minus(op: UnaryOp) -> bool
    ensures { result ≡ is_minus op }
{
    match op {
        UnaryOp::Minus => true,
        UnaryOp::Not => false,
    }
}

#[tactic(auto, using(ssq_ast::proofs::Boxes::boxes), unfolding(crate::specs::Rules::is_divisor))]
fn is_divisor(value: &Expr) -> bool
    ensures { result ≡ is_divisor value.now }
{
    match value {
        Expr::Number { value, .. } => *value != 0,
        Expr::Unary { op, operand, .. } => is_minus(*op) && is_nonzero(operand.get()),
        _ => false,
    }
}

fn divides(op: BinaryOp, right: &Expr) -> bool
    ensures { result ≡ divides op right.now }
{
    match op {
        BinaryOp::Divide => is_divisor(right),
        BinaryOp::Remainder => is_divisor(right),
        _ => true,
    }
}

pub(crate) fn is_interval(value: &Expr) -> bool
    ensures { result ≡ is_interval value.now }
{
    match value {
        Expr::Interval { .. } => true,
        _ => false,
    }
}

fn is_sum(op: BinaryOp) -> bool
    ensures { result ≡ is_sum op }
{
    match op {
        BinaryOp::Add => true,
        BinaryOp::Subtract => true,
        _ => false,
    }
}

fn is_time(checked: Result<ColType, BindFault>) -> bool
    ensures { result ≡ is_time checked }
{
    match checked {
        Ok(ColType::Timestamp) => true,
        _ => false,
    }
}

/// `t + INTERVAL 'a'`
fn is_shifted(op: BinaryOp, left: Result<ColType, BindFault>, right: &Expr) -> bool
    ensures { result ≡ is_shifted op left right.now }
{
    is_sum(op) && is_interval(right) && is_time(left)
}

/// A type, or a fault where there is none.
fn one_or(kind: Option<ColType>, cause: Cause, at: usize) -> Result<ColType, BindFault>
    ensures { result ≡ one_or kind cause at }
{
    match kind {
        Some(kind) => Ok(kind),
        None => Err(BindFault { at, cause }),
    }
}

fn only_here(
    within: Within,
    at: usize,
    checked: Result<ColType, BindFault>,
) -> Result<ColType, BindFault>
    ensures { result ≡ only_here within at checked }
{
    match within {
        Within::Group => checked,
        Within::Row => match checked {
            Ok(_) => Err(BindFault {
                at,
                cause: Cause::AggregateHere,
            }),
            Err(fault) => Err(earlier(
                fault,
                BindFault {
                    at,
                    cause: Cause::AggregateHere,
                },
            )),
        },
    }
}

fn aggregate_checked(
    within: Within,
    function: Function,
    at: usize,
    argument: Result<ColType, BindFault>,
) -> Result<ColType, BindFault>
    ensures { result ≡ aggregate_checked within function at argument }
{
    match argument {
        Ok(kind) => only_here(
            within,
            at,
            one_or(aggregate_kind(function, kind), Cause::WrongType, at),
        ),
        Err(fault) => Err(fault),
    }
}

fn unary_checked(
    op: UnaryOp,
    at: usize,
    operand: Result<ColType, BindFault>,
) -> Result<ColType, BindFault>
    ensures { result ≡ unary_checked op at operand }
{
    match operand {
        Ok(kind) => one_or(unary_kind(op, kind), Cause::WrongType, at),
        Err(fault) => Err(fault),
    }
}

fn null_checked(operand: Result<ColType, BindFault>) -> Result<ColType, BindFault>
    ensures { result ≡ null_checked operand }
{
    match operand {
        Ok(_) => Ok(ColType::Bool),
        Err(fault) => Err(fault),
    }
}

fn divided(divides: bool, right_at: usize) -> Result<(), BindFault>
    ensures { result ≡ divided divides right_at }
{
    if divides {
        Ok(())
    } else {
        Err(BindFault {
            at: right_at,
            cause: Cause::BadDivisor,
        })
    }
}

fn first_of(checked: Result<(ColType, ()), BindFault>) -> Result<ColType, BindFault>
    ensures { result ≡ first_of checked }
{
    match checked {
        Ok((kind, ())) => Ok(kind),
        Err(fault) => Err(fault),
    }
}

fn binary_checked(
    op: BinaryOp,
    at: usize,
    divides: bool,
    right_at: usize,
    operands: Result<(ColType, ColType), BindFault>,
) -> Result<ColType, BindFault>
    ensures { result ≡ binary_checked op at divides right_at operands }
{
    match operands {
        Ok((left, right)) => {
            let typed = one_or(
                operator_kind(operands_of(op), left, right),
                Cause::WrongType,
                at,
            );
            first_of(both(typed, divided(divides, right_at)))
        }
        Err(fault) => Err(fault),
    }
}

fn between_checked(
    at: usize,
    operands: Result<((ColType, ColType), ColType), BindFault>,
) -> Result<ColType, BindFault>
    ensures { result ≡ between_checked at operands }
{
    match operands {
        Ok(((value, low), high)) => {
            if value == low && value == high {
                Ok(ColType::Bool)
            } else {
                Err(BindFault {
                    at,
                    cause: Cause::WrongType,
                })
            }
        }
        Err(fault) => Err(fault),
    }
}

#[tactic(auto, using(ssq_ast::proofs::Boxes::boxes), unfolding(crate::specs::Checked::checked))]
pub(crate) fn checked(scope: &Scope, within: Within, value: &Expr) -> Result<ColType, BindFault>
    ensures { result ≡ checked scope.now within value.now }
{
    match value {
        Expr::Number { .. } => Ok(ColType::Bigint),
        Expr::Text { .. } => Ok(ColType::Str),
        Expr::Truth { .. } => Ok(ColType::Bool),
        Expr::Timestamp { .. } => Ok(ColType::Timestamp),
        Expr::Interval { at, .. } => Err(BindFault {
            at: *at,
            cause: Cause::WrongType,
        }),
        Expr::Column { value } => column_kind(scope, within, value),
        Expr::CountRows { at } => only_here(within, *at, Ok(ColType::Bigint)),
        Expr::Aggregate {
            function,
            at,
            argument,
        } => {
            let argument = checked(scope, Within::Row, argument.get());
            aggregate_checked(within, *function, *at, argument)
        }
        Expr::Unary { op, at, operand } => {
            let operand = checked(scope, within, operand.get());
            unary_checked(*op, *at, operand)
        }
        Expr::IsNull { operand, .. } => null_checked(checked(scope, within, operand.get())),
        Expr::Binary {
            left,
            op,
            at,
            right_at,
            right,
            ..
        } => {
            let left = checked(scope, within, left.get());
            let right = right.get();
            if is_shifted(*op, left, right) {
                Ok(ColType::Timestamp)
            } else {
                let pair = both(left, checked(scope, within, right));
                binary_checked(*op, *at, divides(*op, right), *right_at, pair)
            }
        }
        Expr::Between {
            operand,
            at,
            low,
            high,
        } => {
            let value = checked(scope, within, operand.get());
            let low = checked(scope, within, low.get());
            let high = checked(scope, within, high.get());
            between_checked(*at, both(both(value, low), high))
        }
    }
}

/// The type of an expression in which no rule is broken.
///
/// # Errors
///
/// The first of its faults, each of its parts looked at.
pub fn check_expr(scope: &Scope, within: Within, value: &Expr) -> Result<ColType, BindFault>
    ensures answers { Answers (FaultsIn scope.now within value.now) (kind scope.now within value.now) result }
    ensures first { FirstOf (FaultsIn scope.now within value.now) (fault_in result) }
    ensures kind { type_of result ≡ kind scope.now within value.now }
{
    checked(scope, within, value)
}
