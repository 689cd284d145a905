//! The order of values and of lists of values.

ghost use Rattle.std.specs.Prelude.{◌≡◌, List};
ghost use Rattle.std.specs.Cmp.{IsTotalOrder};
ghost use Rattle.ssq_value.specs.declared.value.Value.{Value as Cell};
ghost use Rattle.ssq_value.specs.Order.{rank_of, value_cmp, values_cmp};

use crate::row::Row;
use crate::value::Value;
use std::cmp::Ordering;

fn rank(value: &Value) -> u8
    ensures { result ≡ rank_of value.now }
{
    match value {
        Value::Null => 0,
        Value::Truth(_) => 1,
        Value::Int(_) => 2,
        Value::Time(_) => 3,
        Value::Text(_) => 4,
    }
}

/// The order of values: NULL, then truth values with false first, numbers, times, and texts by their bytes.
#[tactic(auto, unfolding(crate::specs::Order::value_cmp))]
pub fn order(left: &Value, right: &Value) -> Ordering
    ensures { result ≡ value_cmp left.now right.now }
{
    match (left, right) {
        (Value::Truth(a), Value::Truth(b)) => a.cmp(b),
        (Value::Int(a), Value::Int(b)) => a.cmp(b),
        (Value::Time(a), Value::Time(b)) => a.cmp(b),
        (Value::Text(a), Value::Text(b)) => a.as_str().cmp(&b.as_str()),
        _ => rank(left).cmp(&rank(right)),
    }
}

/// The order of rows and of keys: by the first values from the left that differ, and a list before what it begins.
pub fn order_rows(left: &[Value], right: &[Value]) -> Ordering
    ensures { result ≡ values_cmp left.now right.now }
{
    left.cmp(&right)
}

/// The law of `order` and of `order_rows`: both are total, and only equal values and equal lists tie.
pub fn orders_are_total()
    ensures values { IsTotalOrder value_cmp }
    ensures ties { (left right : Cell) → value_cmp left right ≡ Ordering.Equal → left ≡ right }
    ensures rows { IsTotalOrder values_cmp }
    ensures row_ties { (left right : List Cell) → values_cmp left right ≡ Ordering.Equal → left ≡ right }
{}

/// Values are equal where `order` tells them not apart.
impl PartialEq for Value {
    ghost use Rattle.std.specs.Ordering.{eq_by_cmp};
    ghost use Rattle.std.specs.Cmp.{eq_by_cmp_equiv, partial_equiv_from_equiv};
    ghost use Rattle.ssq_value.specs.Order.{value_cmp};
    ghost use Rattle.ssq_value.specs.OrderLaws.{value_cmp_total};

    ghost eq = { eq_by_cmp value_cmp };

    ghost laws = { partial_equiv_from_equiv (eq_by_cmp_equiv value_cmp_total) };

    fn eq(&self, other: &Value) -> bool {
        order(self, other).is_eq()
    }
}

impl Eq for Value {
    ghost use Rattle.std.specs.Cmp.{eq_by_cmp_equiv};
    ghost use Rattle.ssq_value.specs.OrderLaws.{value_cmp_total};

    ghost laws = { eq_by_cmp_equiv value_cmp_total };
}

/// The order of `order`.
impl PartialOrd for Value {
    ghost use Rattle.std.proofs.Common.{refl};
    ghost use Rattle.std.specs.Ordering.{as_partial_cmp};
    ghost use Rattle.std.specs.Cmp.{po};
    ghost use Rattle.ssq_value.specs.Order.{value_cmp};
    ghost use Rattle.ssq_value.specs.OrderLaws.{value_cmp_total};

    ghost partial_cmp = { as_partial_cmp value_cmp };

    ghost laws = { po value_cmp_total (λ left right. refl) };

    fn partial_cmp(&self, other: &Value) -> Option<Ordering> {
        Some(self.cmp(other))
    }
}

/// The order of `order`.
impl Ord for Value {
    ghost use Rattle.std.proofs.Common.{refl};
    ghost use Rattle.ssq_value.specs.Order.{value_cmp};
    ghost use Rattle.ssq_value.specs.OrderLaws.{value_cmp_total};

    ghost cmp = { value_cmp };

    ghost total = { value_cmp_total };

    ghost matches_partial_cmp = { λ left right. refl };

    ghost matches_eq = { λ left right. refl };

    fn cmp(&self, other: &Value) -> Ordering {
        order(self, other)
    }
}

/// Rows are equal where `order_rows` tells them not apart.
impl PartialEq for Row {
    ghost use Rattle.std.specs.Ordering.{eq_by_cmp};
    ghost use Rattle.std.specs.Cmp.{eq_by_cmp_equiv, partial_equiv_from_equiv};
    ghost use Rattle.ssq_value.specs.Order.{values_cmp};
    ghost use Rattle.ssq_value.specs.OrderLaws.{values_cmp_total};

    ghost eq = { eq_by_cmp values_cmp };

    ghost laws = { partial_equiv_from_equiv (eq_by_cmp_equiv values_cmp_total) };

    fn eq(&self, other: &Row) -> bool {
        order_rows(self.as_slice(), other.as_slice()).is_eq()
    }
}

impl Eq for Row {
    ghost use Rattle.std.specs.Cmp.{eq_by_cmp_equiv};
    ghost use Rattle.ssq_value.specs.OrderLaws.{values_cmp_total};

    ghost laws = { eq_by_cmp_equiv values_cmp_total };
}

/// The order of `order_rows`.
impl PartialOrd for Row {
    ghost use Rattle.std.proofs.Common.{refl};
    ghost use Rattle.std.specs.Ordering.{as_partial_cmp};
    ghost use Rattle.std.specs.Cmp.{po};
    ghost use Rattle.ssq_value.specs.Order.{values_cmp};
    ghost use Rattle.ssq_value.specs.OrderLaws.{values_cmp_total};

    ghost partial_cmp = { as_partial_cmp values_cmp };

    ghost laws = { po values_cmp_total (λ left right. refl) };

    fn partial_cmp(&self, other: &Row) -> Option<Ordering> {
        Some(self.cmp(other))
    }
}

/// The order of `order_rows`, so that rows can be sorted.
impl Ord for Row {
    ghost use Rattle.std.proofs.Common.{refl};
    ghost use Rattle.ssq_value.specs.Order.{values_cmp};
    ghost use Rattle.ssq_value.specs.OrderLaws.{values_cmp_total};

    ghost cmp = { values_cmp };

    ghost total = { values_cmp_total };

    ghost matches_partial_cmp = { λ left right. refl };

    ghost matches_eq = { λ left right. refl };

    fn cmp(&self, other: &Row) -> Ordering {
        order_rows(self.as_slice(), other.as_slice())
    }
}
