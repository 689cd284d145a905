//! The aggregates of SELECT and HAVING, and whether a query groups its rows.

ghost use Rattle.std.specs.Prelude.{◌≡◌};
ghost use Rattle.std.specs.List.{flat_map};
ghost use Rattle.ssq_check.specs.Counted.{tally_of, Counts};
ghost use Rattle.ssq_check.specs.Shown.{aggregates, item_aggregates, having_aggregates, shown_aggregates, group_place_at, is_group, within_by};

use crate::scope::Within;
use crate::tally::Tally;
use ssq_ast::{Condition, Expr, GroupBy, Item, Query};

/// How many aggregates SELECT and HAVING may have together.
const MOST_AGGREGATES: usize = 64;

/// The places of the aggregates that stand in no other, after others.
#[tactic(auto, using(crate::proofs::Tallied::counts_none), unfolding(crate::specs::Shown::aggregates))]
fn with_aggregates(value: &Expr, tally: Tally) -> Tally
    ensures { Counts tally (aggregates value.now) result }
{
    match value {
        Expr::CountRows { at } => tally.counting(*at),
        Expr::Aggregate { at, .. } => tally.counting(*at),
        Expr::Unary { operand, .. } => with_aggregates(operand.get(), tally),
        Expr::IsNull { operand, .. } => with_aggregates(operand.get(), tally),
        Expr::Binary { left, right, .. } => {
            let half = with_aggregates(left.get(), tally);
            with_aggregates(right.get(), half)
        }
        Expr::Between {
            operand,
            low,
            high,
            ..
        } => {
            let tested = with_aggregates(operand.get(), tally);
            let least = with_aggregates(low.get(), tested);
            with_aggregates(high.get(), least)
        }
        _ => tally,
    }
}

#[tactic(auto, using(crate::proofs::Tallied::counts_none))]
fn with_item(item: &Item, tally: Tally) -> Tally
    ensures { Counts tally (item_aggregates item.now) result }
{
    match item {
        Item::Column { .. } => tally,
        Item::Named { value, .. } => with_aggregates(value, tally),
    }
}

fn with_items(items: &[Item], tally: Tally) -> Tally
    ensures { Counts tally (flat_map item_aggregates items.now) result }
{
    let mut tally = tally;
    for item in items {
        tally = with_item(item, tally);
    }
    tally
}

#[tactic(auto, using(crate::proofs::Tallied::counts_none))]
fn with_having(having: &Option<Condition>, tally: Tally) -> Tally
    ensures { Counts tally (having_aggregates having.now) result }
{
    match having {
        Some(condition) => with_aggregates(&condition.value, tally),
        None => tally,
    }
}

/// The places of the aggregates that SELECT and HAVING show.
pub(crate) fn shown_aggregates(query: &Query) -> Tally
    ensures { result ≡ tally_of 64 (shown_aggregates query.now) }
{
    let select = &query.select;
    let selected = with_items(select.items.as_slice(), Tally::none_of(MOST_AGGREGATES));
    with_having(&select.having, selected)
}

/// Where a query says that it groups its rows: at GROUP BY, else at its first aggregate.
pub(crate) fn group_place(group: &Option<GroupBy>, aggregate: Option<usize>) -> Option<usize>
    ensures { result ≡ group_place_at group.now aggregate }
{
    match group {
        Some(by) => Some(by.at),
        None => aggregate,
    }
}

/// Whether a query groups its rows: GROUP BY stands, or an aggregate in SELECT or HAVING.
pub fn is_group(query: &Query) -> bool
    ensures { result ≡ is_group query.now }
{
    let aggregates = shown_aggregates(query);
    group_place(&query.select.group, aggregates.first).is_some()
}

/// Where the expressions of SELECT and HAVING stand.
pub fn within(is_group: bool) -> Within
    ensures { result ≡ within_by is_group }
{
    if is_group { Within::Group } else { Within::Row }
}
