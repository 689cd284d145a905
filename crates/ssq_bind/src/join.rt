//! JOIN and ON.

ghost use Rattle.std.specs.Prelude.{◌≡◌, [], ◌∷◌, IfOk, OnOk};
ghost use Rattle.std.specs.Option.{option_copied};
ghost use Rattle.ssq_bind.specs.Joins.{parts_of, pair_on, pair_by, pair_of, key_pair, spot_index, shifted_column, or_none, span_of, bound_by, time_bound, parts_with, kind_of, joining_of};

use crate::context::Context;
use crate::value::{row_value, shift_of};
use ssq_ast::{BinaryOp, ColumnRef, Expr, Join};
use ssq_check::{Scope, Side, Spot, bare_column, column_spot, looked};
use ssq_shape::{JoinKind, Joining, KeyPair, TimeBound, Typed};
use ssq_value::Sequence;
use std::alloc::{AllocError, Global};

/// What ON joins by AND, by its kind.
#[derive(Drop)]
pub struct Parts {
    /// The key equalities.
    pub keys: Sequence<KeyPair>,
    /// The BETWEENs. A query without a fault has one at most.
    pub bounds: Sequence<TimeBound>,
    /// What is neither.
    pub rest: Sequence<Typed>,
}

fn pair_on(side: Side, a: usize, b: usize) -> KeyPair
    ensures { result ≡ pair_on side a b }
{
    match side {
        Side::Left => KeyPair { left: a, right: b },
        Side::Right => KeyPair { left: b, right: a },
    }
}

/// The columns that are compared, where they are of different streams.
fn pair_of(op: BinaryOp, a: Option<Spot>, b: Option<Spot>) -> Option<KeyPair>
    ensures { result ≡ pair_of op a b }
{
    match (a, b) {
        (Some(a), Some(b)) => {
            if op == BinaryOp::Equal && a.side != b.side {
                Some(pair_on(a.side, a.index, b.index))
            } else {
                None
            }
        }
        _ => None,
    }
}

#[tactic(auto, using(ssq_ast::proofs::Boxes::boxes), unfolding(crate::specs::Joins::key_pair))]
fn key_pair(scope: &Scope, value: &Expr) -> Option<KeyPair>
    ensures { result ≡ key_pair scope.now value.now }
{
    match value {
        Expr::Binary {
            left,
            op,
            right,
            ..
        } => {
            let a = column_spot(scope, left.get());
            let b = column_spot(scope, right.get());
            pair_of(*op, a, b)
        }
        _ => None,
    }
}

fn spot_index(spot: Option<Spot>) -> usize
    ensures { result ≡ spot_index spot }
{
    match spot {
        Some(spot) => spot.index,
        None => 0,
    }
}

#[tactic(auto, using(ssq_ast::proofs::Boxes::boxes), unfolding(crate::specs::Joins::shifted_column))]
fn shifted_column(value: &Expr) -> Option<&ColumnRef>
    ensures { option_copied result ≡ shifted_column value.now }
{
    match value {
        Expr::Column { value } => Some(value),
        Expr::Binary { left, .. } => bare_column(left.get()),
        _ => None,
    }
}

fn or_none(shift: Option<i64>) -> i64
    ensures { result ≡ or_none shift }
{
    match shift {
        Some(by) => by,
        None => 0,
    }
}

#[tactic(auto, using(ssq_ast::proofs::Boxes::boxes), unfolding(crate::specs::Joins::span_of))]
fn span_of(value: &Expr) -> i64
    ensures { result ≡ span_of value.now }
{
    match value {
        Expr::Binary { op, right, .. } => or_none(shift_of(*op, right.get())),
        _ => 0,
    }
}

/// The bound that a BETWEEN of these operands is.
fn bound_by(scope: &Scope, value: &Expr, low: &Expr, high: &Expr) -> TimeBound
    ensures { result ≡ bound_by scope.now value.now low.now high.now }
{
    TimeBound {
        left: spot_index(looked(scope, shifted_column(low))),
        right: spot_index(column_spot(scope, value)),
        lo: span_of(low),
        hi: span_of(high),
    }
}

#[tactic(auto, using(ssq_ast::proofs::Boxes::boxes), unfolding(crate::specs::Joins::time_bound))]
fn time_bound(scope: &Scope, value: &Expr) -> Option<TimeBound>
    ensures { result ≡ time_bound scope.now value.now }
{
    match value {
        Expr::Between {
            operand,
            low,
            high,
            ..
        } => Some(bound_by(scope, operand.get(), low.get(), high.get())),
        _ => None,
    }
}

/// Puts what ON joins by AND after what stands in front of it.
fn put(alloc: Global, context: &Context, parts: &mut Parts, value: &Expr) -> Result<(), AllocError>
    ensures { OnOk result (parts.new ≡ parts_with context.now parts.old (value.now ∷ [])) }
{
    let pair = key_pair(&context.scope, value);
    let bound = time_bound(&context.scope, value);
    match (pair, bound) {
        (Some(pair), _) => parts.keys.push(pair),
        (None, Some(bound)) => parts.bounds.push(bound),
        (None, None) => {
            let typed = row_value(alloc, context, value)?;
            parts.rest.push(typed)
        }
    }
}

/// Takes ON apart where it joins by AND.
#[tactic(auto, using(ssq_ast::proofs::Boxes::boxes), unfolding(crate::specs::Joins::parts_of))]
fn take_apart(
    alloc: Global,
    context: &Context,
    parts: &mut Parts,
    value: &Expr,
) -> Result<(), AllocError>
    ensures { OnOk result (parts.new ≡ parts_with context.now parts.old (parts_of value.now)) }
{
    match value {
        Expr::Binary {
            left,
            op,
            right,
            ..
        } => {
            if *op == BinaryOp::And {
                take_apart(alloc, context, parts, left.get())?;
                take_apart(alloc, context, parts, right.get())
            } else {
                put(alloc, context, parts, value)
            }
        }
        _ => put(alloc, context, parts, value),
    }
}

fn kind_of(kind: ssq_ast::JoinKind) -> JoinKind
    ensures { result ≡ kind_of kind }
{
    match kind {
        ssq_ast::JoinKind::Inner => JoinKind::Inner,
        ssq_ast::JoinKind::Left => JoinKind::Left,
        ssq_ast::JoinKind::Right => JoinKind::Right,
    }
}

/// The bound join.
pub(crate) fn joining_of(
    alloc: Global,
    context: &Context,
    join: &Join,
) -> Result<Joining, AllocError>
    ensures { IfOk result (λ joining. joining ≡ joining_of context.now join.now) }
{
    let mut parts = Parts {
        keys: Sequence::new(alloc),
        bounds: Sequence::new(alloc),
        rest: Sequence::new(alloc),
    };
    take_apart(alloc, context, &mut parts, &join.on.value)?;
    let bound = parts.bounds.as_slice().first().copied();
    Ok(Joining {
        kind: kind_of(join.kind),
        keys: parts.keys,
        bound,
        rest: parts.rest,
    })
}
