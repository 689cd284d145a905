//! Typed expressions.

use sqlite_items::Boxed;
use ssq_value::Value;

/// An operator on two whole numbers.
#[derive(Clone, Copy)]
pub enum Arithmetic {
    Plus,
    Minus,
    Times,
    /// `DIV`: the quotient, cut off towards zero.
    Quotient,
    /// `%`: what `DIV` leaves; it has the sign of the dividend.
    Remainder,
}

/// How two values of one type are compared.
#[derive(Clone, Copy)]
pub enum Comparison {
    Equal,
    NotEqual,
    Less,
    AtMost,
    Greater,
    AtLeast,
}

/// An expression whose names are bound and whose types were checked.
#[derive(Drop)]
pub enum Typed {
    /// The column of this index in the row.
    Column(usize),
    /// The aggregate of this number, in an expression on groups.
    Aggregate(usize),
    /// A number, text, time or truth value. The language has no constant that is NULL.
    Constant(Value),
    /// `-` before a number.
    Negated(Boxed<Typed>),
    /// `NOT`.
    Not(Boxed<Typed>),
    /// `IS NULL`; `IS NOT NULL` is `NOT` of it.
    IsNull(Boxed<Typed>),
    Arithmetic(Arithmetic, Boxed<Typed>, Boxed<Typed>),
    /// A time plus a span in microseconds, which is negative where the span is taken from the time.
    Shifted(Boxed<Typed>, i64),
    /// `||`: the two texts, one after the other.
    Joined(Boxed<Typed>, Boxed<Typed>),
    Compared(Comparison, Boxed<Typed>, Boxed<Typed>),
    /// `a BETWEEN b AND c`.
    Between(Boxed<Typed>, Boxed<Typed>, Boxed<Typed>),
    And(Boxed<Typed>, Boxed<Typed>),
    Or(Boxed<Typed>, Boxed<Typed>),
}
