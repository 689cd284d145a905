//! The key of rows, as a map or a set that hashes has it.

ghost use Rattle.std.specs.Prelude.{◌≡◌};
ghost use Rattle.std.specs.List.{fold};
ghost use Rattle.ssq_step.specs.Hashing.{key_writes, value_writes};

use ssq_value::{Value, order_rows};
use std::hash::{Hash, Hasher};
use std::marker::Model;

/// The key of a row, lent. Contracts see its values.
#[derive(Drop)]
pub struct Key<'a>(&'a [Value]);

impl<'a> Model for Key<'a> {
    ghost use Rattle.std.specs.Prelude.{List};
    ghost use Rattle.ssq_value.specs.declared.value.Value.{Value as Cell};

    ghost Value = { List Cell };

    ghost view = { λ key. key.0.now };
}

impl<'a> Key<'a> {
    pub fn of(values: &'a [Value]) -> Key<'a>
        ensures { result ≡ values.now }
    {
        Key(values)
    }

    /// The values that are lent.
    pub fn values(&self) -> &'a [Value]
        ensures { result.now ≡ self.now }
    {
        self.0
    }
}

/// Keys are equal where their values are.
impl<'a> PartialEq for Key<'a> {
    ghost use Rattle.std.specs.Cmp.{eq_by_cmp_equiv, partial_equiv_from_equiv};
    ghost use Rattle.ssq_value.specs.OrderLaws.{values_cmp_total};
    ghost use Rattle.ssq_meaning.specs.Group.{is_same};

    ghost eq = { is_same };

    ghost laws = { partial_equiv_from_equiv (eq_by_cmp_equiv values_cmp_total) };

    fn eq(&self, other: &Key<'a>) -> bool {
        order_rows(self.0, other.0).is_eq()
    }
}

impl<'a> Eq for Key<'a> {
    ghost use Rattle.std.specs.Cmp.{eq_by_cmp_equiv};
    ghost use Rattle.ssq_value.specs.OrderLaws.{values_cmp_total};

    ghost laws = { eq_by_cmp_equiv values_cmp_total };
}

fn feed<H: Hasher>(value: &Value, state: &mut H)
    ensures { state.new ≡ fold H.write state.old (value_writes value.now) }
{
    match value {
        Value::Null => state.write_u8(2),
        Value::Truth(truth) => truth.hash(state),
        Value::Int(number) => number.hash(state),
        Value::Time(time) => time.hash(state),
        Value::Text(text) => text.hash(state),
    }
}

fn feed_all<H: Hasher>(values: &[Value], state: &mut H)
    ensures { state.new ≡ fold H.write state.old (key_writes values.now) }
{
    for value in values {
        feed(value, state);
    }
}

/// By the values one after the other.
impl<'a> Hash for Key<'a> {
    ghost use Rattle.ssq_step.specs.Hashing.{key_writes, same_writes};

    ghost hash_input = { key_writes };

    ghost respects_eq = { same_writes };

    fn hash<H: Hasher>(&self, state: &mut H) {
        feed_all(self.0, state);
    }
}
