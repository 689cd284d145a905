//! Trees of expressions, and how high they are.

ghost use Rattle.std.specs.Prelude.{max, Ok};
ghost use Rattle.ssq_parse.specs.Reading.{Makes};
ghost use Rattle.ssq_parse.specs.Trees as spec;

use crate::fault::{ParseCause, Stop};
use sqlite_items::Boxed;
use ssq_ast::{BinaryOp, Expr, NullTest, UnaryOp};
use std::alloc::Global;

/// No tree is higher.
pub(crate) const MOST_HEIGHT: usize = 64;

/// An expression as it was read, the place of its first token, brackets included, and its height. It is in a box, since one
/// that is not is dropped variant by variant wherever reading stops.
#[derive(Drop)]
pub(crate) struct Tree {
    pub value: Boxed<Expr>,
    pub at: usize,
    pub height: usize,
}

/// An expression that is so high, in its box.
fn grown(alloc: Global, value: Expr, at: usize, height: usize) -> Result<Tree, Stop>
    ensures { Makes (Ok (spec.tree_of value at height)) result }
{
    let value = Boxed::new(alloc, value)?;
    Ok(Tree { value, at, height })
}

/// An operand that is no operator.
pub(crate) fn leaf(alloc: Global, at: usize, value: Expr) -> Result<Tree, Stop>
    ensures { Makes (Ok (spec.leaf at value)) result }
{
    grown(alloc, value, at, 1)
}

/// The height of an operator over an operand so high.
fn risen(at: usize, height: usize) -> Result<usize, Stop>
    ensures { Makes (spec.risen at height) result }
{
    if height < MOST_HEIGHT {
        Ok(height + 1)
    } else {
        Err(Stop::Refused {
            at: Some(at),
            cause: ParseCause::TooDeep,
        })
    }
}

#[tactic(auto, unfolding(crate::specs::Trees::unary))]
pub(crate) fn unary(alloc: Global, op: UnaryOp, at: usize, operand: Tree) -> Result<Tree, Stop>
    ensures { Makes (spec.unary op at operand) result }
{
    let height = risen(at, operand.height)?;
    let operand = operand.value;
    grown(alloc, Expr::Unary { op, at, operand }, at, height)
}

#[tactic(auto, unfolding(crate::specs::Trees::binary))]
pub(crate) fn binary(
    alloc: Global,
    op: BinaryOp,
    at: usize,
    left: Tree,
    right: Tree,
) -> Result<Tree, Stop>
    ensures { Makes (spec.binary op at left right) result }
{
    let height = risen(at, left.height.max(right.height))?;
    let value = Expr::Binary {
        left_at: left.at,
        left: left.value,
        op,
        at,
        right_at: right.at,
        right: right.value,
    };
    grown(alloc, value, left.at, height)
}

#[tactic(auto, unfolding(crate::specs::Trees::null_test))]
pub(crate) fn null_test(
    alloc: Global,
    test: NullTest,
    at: usize,
    operand: Tree,
) -> Result<Tree, Stop>
    ensures { Makes (spec.null_test test at operand) result }
{
    let height = risen(at, operand.height)?;
    let value = Expr::IsNull {
        operand: operand.value,
        at,
        test,
    };
    grown(alloc, value, operand.at, height)
}

#[tactic(auto, unfolding(crate::specs::Trees::between))]
pub(crate) fn between(
    alloc: Global,
    at: usize,
    operand: Tree,
    low: Tree,
    high: Tree,
) -> Result<Tree, Stop>
    ensures { Makes (spec.between at operand low high) result }
{
    let height = risen(at, operand.height.max(low.height).max(high.height))?;
    let value = Expr::Between {
        operand: operand.value,
        at,
        low: low.value,
        high: high.value,
    };
    grown(alloc, value, operand.at, height)
}
