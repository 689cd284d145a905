//! The order of an epoch's rows.

ghost use Rattle.std.specs.Prelude.{◌≡◌, List};
ghost use Rattle.std.specs.Cmp.{IsTotalOrder};
ghost use Rattle.std.specs.List.Sorted.{IsPermutation};
ghost use Rattle.ssq_value.specs.declared.value.Value.{Value as Cell};
ghost use Rattle.ssq_shape.specs.declared.bound.SortKey.{SortKey as Key};
ghost use Rattle.ssq_sink.specs.Sink.{is_row_below, key_cmp, row_cmp};
ghost use Rattle.ssq_sink.specs.Sorted.{sorted};

use ssq_shape::{Direction, SortKey};
use ssq_value::{Row, Value, order_rows};
use std::cmp::Ordering;

/// How two rows stand by one key of ORDER BY.
fn order_by_key(key: &SortKey, left: &[Value], right: &[Value]) -> Ordering
    ensures { result ≡ key_cmp key.now left.now right.now }
{
    let (left, right) = (left.get(key.output), right.get(key.output));
    match key.direction {
        Direction::Ascending => left.cmp(&right),
        Direction::Descending => right.cmp(&left),
    }
}

/// How two rows stand by the keys of ORDER BY, and where they tie on these, by their values from the left.
fn order_by(order: &[SortKey], left: &[Value], right: &[Value]) -> Ordering
    ensures { result ≡ row_cmp order.now left.now right.now }
{
    for key in order {
        let by_key = order_by_key(key, left, right);
        if by_key.is_ne() {
            return by_key;
        }
    }
    order_rows(left, right)
}

/// The rows in the order of `order_by`. Those of a partition mostly ascend already: the sort that finds what ascends and merges it
/// takes room for the rows once more, and without it they are sorted where they stand.
pub(crate) fn sort(order: &[SortKey], mut rows: Vec<Row>) -> Vec<Row>
    ensures sorted { result.items ≡ sorted (is_row_below order.now) rows.items }
    ensures permutation { IsPermutation rows.items result.items }
{
    match rows.sort_by(|left, right| order_by(order, left.as_slice(), right.as_slice())) {
        Ok(()) => rows,
        Err(_) => {
            rows.sort_unstable_by(|left, right| order_by(order, left.as_slice(), right.as_slice()));
            rows
        }
    }
}

/// The law of orders: whatever the keys of ORDER BY, the order of rows is total, and only equal rows tie.
pub fn row_orders_are_total()
    ensures total { (order : List Key) → IsTotalOrder (row_cmp order) }
    ensures ties { (order : List Key) (left right : List Cell) → row_cmp order left right ≡ Ordering.Equal → left ≡ right }
{}
