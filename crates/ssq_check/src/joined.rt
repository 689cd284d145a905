//! ON: its key equalities, and which of its parts is the bound on times.

ghost use Rattle.std.specs.Prelude.{◌≡◌, ◌&&◌, true, false, if◌then◌else◌, [], ◌∷◌, None};
ghost use Rattle.std.specs.Option.{option_copied};
ghost use Rattle.ssq_check.specs.Broken.{Either, Rule};
ghost use Rattle.ssq_check.specs.Fault.{FirstOf};
ghost use Rattle.ssq_check.specs.declared.fault.Cause.TheVariants as cause;
ghost use Rattle.ssq_check.specs.Names.{is_there};
ghost use Rattle.ssq_check.specs.Rules.{is_interval, kind};
ghost use Rattle.ssq_check.specs.Joined as on;
ghost use Rattle.ssq_check.specs.Joined.{conjuncts, looked, bare_column, ConjunctFaults};
ghost use Rattle.ssq_check.specs.Counted.{tally_of, Counts};
ghost use Rattle.ssq_check.specs.Walked.{Met, Meets};
ghost use Rattle.ssq_check.specs.Clauses.{OnFaults};
ghost use Rattle.ssq_check.specs.declared.scope.Within.TheVariants as within;

use crate::clause::check_condition;
use crate::expr::{check_expr, is_interval};
use crate::fault::{BindFault, Cause, rule, sooner};
use crate::list::standing;
use crate::scope::{Scope, Side, Source, Spot, Within, bare_spot, named_spot};
use crate::tally::Tally;
use ssq_ast::{BinaryOp, ColumnRef, Condition, Expr};
use ssq_value::{ColType, Text};

/// How many key equalities ON may have.
const MOST_KEYS: usize = 64;

/// What was met on the way through ON.
#[derive(Clone, Copy)]
pub struct Walk {
    /// Whether a BETWEEN was met.
    pub seen: bool,
    /// The first BETWEEN that may not stand there.
    pub bound: Option<BindFault>,
    /// The key equalities.
    pub keys: Tally,
}

/// A side of a bound on times.
#[derive(Clone, Copy)]
pub enum Edge {
    /// `l.t - INTERVAL 'a'`
    Low,
    /// `l.t + INTERVAL 'b'`
    High,
}

fn is_and(op: BinaryOp) -> bool
    ensures { result ≡ on.is_and op }
{
    match op {
        BinaryOp::And => true,
        _ => false,
    }
}

fn is_equal(op: BinaryOp) -> bool
    ensures { result ≡ on.is_equal op }
{
    match op {
        BinaryOp::Equal => true,
        _ => false,
    }
}

fn is_edge(edge: Edge, op: BinaryOp) -> bool
    ensures { result ≡ on.is_edge edge op }
{
    match (edge, op) {
        (Edge::Low, BinaryOp::Subtract) => true,
        (Edge::High, BinaryOp::Add) => true,
        _ => false,
    }
}

/// The column that is meant, or what is wrong with its name.
pub fn spot_of(scope: &Scope, column: &ColumnRef) -> Result<Spot, BindFault>
    ensures { result ≡ on.spot_of scope.now column.now }
{
    match &column.stream {
        Some(stream) => named_spot(scope, stream, &column.column),
        None => bare_spot(scope, &column.column),
    }
}

/// The column that was found.
pub fn spot_in(found: Result<Spot, BindFault>) -> Option<Spot>
    ensures { result ≡ on.spot_in found }
{
    match found {
        Ok(spot) => Some(spot),
        Err(_) => None,
    }
}

/// The column that is meant, where there is a name and nothing is wrong with it.
pub fn looked(scope: &Scope, column: Option<&ColumnRef>) -> Option<Spot>
    ensures { result ≡ looked scope.now (option_copied column.entry) }
{
    match column {
        Some(column) => spot_in(spot_of(scope, column)),
        None => None,
    }
}

/// The name of a column that an expression is.
pub fn bare_column(value: &Expr) -> Option<&ColumnRef>
    ensures { option_copied result ≡ bare_column value.now }
{
    match value {
        Expr::Column { value } => Some(value),
        _ => None,
    }
}

/// The column that an expression is.
pub fn column_spot(scope: &Scope, value: &Expr) -> Option<Spot>
    ensures { result ≡ looked scope.now (bare_column value.now) }
{
    looked(scope, bare_column(value))
}

fn are_across(left: Option<Spot>, right: Option<Spot>) -> bool
    ensures { result ≡ on.are_across left right }
{
    match (left, right) {
        (Some(left), Some(right)) => left.side != right.side,
        _ => false,
    }
}

/// `l.a = r.b`
fn is_pair(scope: &Scope, op: BinaryOp, left: &Expr, right: &Expr) -> bool
    ensures { result ≡ on.is_pair scope.now op left.now right.now }
{
    is_equal(op) && are_across(column_spot(scope, left), column_spot(scope, right))
}

fn is_side(edge: Edge, op: BinaryOp, right: &Expr) -> bool
    ensures { result ≡ (on.is_edge edge op && is_interval right.now) }
{
    is_edge(edge, op) && is_interval(right)
}

/// The column of a bound's side.
#[tactic(auto, using(ssq_ast::proofs::Boxes::boxes), unfolding(crate::specs::Joined::edge_column))]
fn edge_column(edge: Edge, value: &Expr) -> Option<&ColumnRef>
    ensures { option_copied result ≡ on.edge_column edge value.now }
{
    match value {
        Expr::Column { value } => Some(value),
        Expr::Binary {
            left,
            op,
            right,
            ..
        } => {
            if is_side(edge, *op, right.get()) {
                bare_column(left.get())
            } else {
                None
            }
        }
        _ => None,
    }
}

fn is_at(spot: Option<Spot>, index: usize) -> bool
    ensures { result ≡ on.is_at spot index }
{
    match spot {
        Some(spot) => spot.index == index,
        None => false,
    }
}

fn is_time_spot(spot: Spot) -> bool
    ensures { result ≡ on.is_time_spot spot }
{
    match spot.kind {
        ColType::Timestamp => true,
        _ => false,
    }
}

fn is_event_of(source: &Source, spot: Spot) -> bool
    ensures { result ≡ on.is_event_by source.now.watermark source.now.columns spot }
{
    match &source.watermark {
        Some(name) => is_at(source.columns.spot(spot.side, name), spot.index),
        None => is_time_spot(spot),
    }
}

fn is_event(source: &Option<Source>, spot: Spot) -> bool
    ensures { result ≡ on.is_event source.now spot }
{
    match source {
        Some(source) => is_event_of(source, spot),
        None => false,
    }
}

fn is_right(side: Side) -> bool
    ensures { result ≡ on.is_right side }
{
    match side {
        Side::Right => true,
        Side::Left => false,
    }
}

fn are_bound(scope: &Scope, time: Option<Spot>, low: Option<Spot>, high: Option<Spot>) -> bool
    ensures { result ≡ on.are_bound scope.now time low high }
{
    let Some(time) = time else {
        return false;
    };
    let Some(low) = low else {
        return false;
    };
    let Some(high) = high else {
        return false;
    };
    is_right(time.side)
        && !is_right(low.side)
        && !is_right(high.side)
        && low.index == high.index
        && is_event(&scope.right, time)
        && is_event(&scope.left, low)
}

/// `r.t BETWEEN l.t - INTERVAL 'a' AND l.t + INTERVAL 'b'`
fn is_bound(scope: &Scope, time: &Expr, low: &Expr, high: &Expr) -> bool
    ensures { result ≡ on.is_bound scope.now time.now low.now high.now }
{
    let time = column_spot(scope, time);
    let low = looked(scope, edge_column(Edge::Low, low));
    let high = looked(scope, edge_column(Edge::High, high));
    are_bound(scope, time, low, high)
}

fn is_typed(scope: &Scope, value: &Expr) -> bool
    ensures { result ≡ is_there (kind scope.now within.Row value.now) }
{
    match check_expr(scope, Within::Row, value) {
        Ok(_) => true,
        Err(_) => false,
    }
}

fn are_typed(scope: &Scope, time: &Expr, low: &Expr, high: &Expr) -> bool
    ensures { result ≡ on.are_typed scope.now time.now low.now high.now }
{
    is_typed(scope, time) && is_typed(scope, low) && is_typed(scope, high)
}

fn is_misplaced(scope: &Scope, seen: bool, time: &Expr, low: &Expr, high: &Expr) -> bool
    ensures { result ≡ on.is_misplaced_by scope.now seen time.now low.now high.now }
{
    let is_no_bound = seen || !is_bound(scope, time, low, high);
    is_no_bound && are_typed(scope, time, low, high)
}

/// A BETWEEN, and whether it may not stand there.
#[tactic(auto, using(crate::proofs::OnWay::met_sooner))]
fn bound_met(walk: Walk, at: usize, misplaced: bool) -> Walk
    ensures rest { (result.seen ≡ true) × (result.keys ≡ walk.keys) }
    ensures bound { FirstOf (Either (Met walk.bound) (Rule cause.BadBound at (misplaced ≡ true))) result.bound }
{
    Walk {
        seen: true,
        bound: sooner(walk.bound, rule(Cause::BadBound, at, misplaced)),
        keys: walk.keys,
    }
}

/// Another part, and whether it is a key equality.
#[tactic(auto, using(crate::proofs::Tallied::counts_none))]
fn key_step(walk: Walk, at: usize, is_key: bool) -> Walk
    ensures rest { (result.seen ≡ walk.seen) × (result.bound ≡ walk.bound) }
    ensures keys { Counts walk.keys (if is_key then at ∷ [] else []) result.keys }
{
    if is_key {
        Walk {
            seen: walk.seen,
            bound: walk.bound,
            keys: walk.keys.counting(at),
        }
    } else {
        walk
    }
}

/// What is met in an expression that stands at the first token `at`.
fn walked(scope: &Scope, walk: Walk, at: usize, value: &Expr) -> Walk
    ensures { Meets scope.now walk (conjuncts at value.now) result }
{
    match value {
        Expr::Binary {
            left_at,
            left,
            op,
            right_at,
            right,
            ..
        } => {
            if is_and(*op) {
                let half = walked(scope, walk, *left_at, left.get());
                walked(scope, half, *right_at, right.get())
            } else {
                key_step(walk, at, is_pair(scope, *op, left.get(), right.get()))
            }
        }
        Expr::Between {
            operand,
            at: between_at,
            low,
            high,
        } => {
            let misplaced = is_misplaced(scope, walk.seen, operand.get(), low.get(), high.get());
            bound_met(walk, *between_at, misplaced)
        }
        _ => walk,
    }
}

fn start() -> Walk
    ensures { result ≡ record { seen = false; bound = None; keys = tally_of 64 [] } }
{
    Walk {
        seen: false,
        bound: None,
        keys: Tally::none_of(MOST_KEYS),
    }
}

fn check_conjuncts(scope: &Scope, on: &Condition) -> Option<BindFault>
    ensures { FirstOf (ConjunctFaults scope.now (conjuncts on.now.at on.now.value)) result }
{
    let walk = walked(scope, start(), on.at, &on.value);
    sooner(standing(Cause::TooMany, walk.keys.past), walk.bound)
}

/// ON.
#[tactic(auto, using(crate::proofs::First::first_sooner))]
pub(crate) fn check_on(scope: &Scope, on: &Condition) -> Option<BindFault>
    ensures { FirstOf (OnFaults scope.now on.now) result }
{
    sooner(
        check_condition(scope, Within::Row, on),
        check_conjuncts(scope, on),
    )
}
