//! Expressions as they are written, with the places of their parts.

use sqlite_items::Boxed;
use ssq_value::Text;

/// A name and the place where it stands.
#[derive(Drop)]
pub struct Ident {
    pub text: Text,
    pub at: usize,
}

/// A column, `s.v` or `v`.
#[derive(Drop)]
pub struct ColumnRef {
    pub stream: Option<Ident>,
    pub column: Ident,
}

/// A span of time.
#[derive(Drop)]
pub struct Span {
    /// As it was written.
    pub text: Text,
    /// Its length in microseconds.
    pub micros: i64,
}

/// A moment.
#[derive(Drop)]
pub struct Moment {
    /// As it was written.
    pub text: Text,
    /// In microseconds since 1970-01-01T00:00:00Z.
    pub micros: i64,
}

/// A function of a group's rows.
#[derive(Clone, Copy)]
pub enum Function {
    Count,
    Sum,
    Min,
    Max,
}

/// An operator before its operand.
#[derive(Clone, Copy)]
pub enum UnaryOp {
    Not,
    Minus,
}

/// An operator between two operands.
#[derive(Clone, Copy, PartialEq, Eq)]
pub enum BinaryOp {
    Or,
    And,
    Equal,
    NotEqual,
    Less,
    AtMost,
    Greater,
    AtLeast,
    Add,
    Subtract,
    /// `||`
    Concat,
    Multiply,
    /// `DIV`
    Divide,
    /// `%`
    Remainder,
}

/// What `IS` asks.
#[derive(Clone, Copy)]
pub enum NullTest {
    /// `IS NULL`
    Null,
    /// `IS NOT NULL`
    NotNull,
}

/// An expression, without its brackets. Each `at` is the place of the token that it is named by.
#[derive(Drop)]
pub enum Expr {
    /// A number from 0 to 9223372036854775807.
    Number {
        value: i64,
        at: usize,
    },
    Text {
        value: Text,
        at: usize,
    },
    /// TRUE or FALSE.
    Truth {
        value: bool,
        at: usize,
    },
    /// `TIMESTAMP '2024-01-01T00:00:00Z'`, at its keyword.
    Timestamp {
        value: Moment,
        at: usize,
    },
    /// `INTERVAL '1 day'`, at its keyword.
    Interval {
        value: Span,
        at: usize,
    },
    Column {
        value: ColumnRef,
    },
    /// `COUNT(*)`
    CountRows {
        at: usize,
    },
    /// `SUM(v)`
    Aggregate {
        function: Function,
        at: usize,
        argument: Boxed<Expr>,
    },
    /// `NOT a`, `- a`
    Unary {
        op: UnaryOp,
        at: usize,
        operand: Boxed<Expr>,
    },
    /// `a IS NULL`, at `IS`
    IsNull {
        operand: Boxed<Expr>,
        at: usize,
        test: NullTest,
    },
    /// `a + b`
    Binary {
        /// The first token of the left operand, brackets included.
        left_at: usize,
        left: Boxed<Expr>,
        op: BinaryOp,
        at: usize,
        /// The first token of the right operand, brackets included.
        right_at: usize,
        right: Boxed<Expr>,
    },
    /// `a BETWEEN b AND c`, at `BETWEEN`
    Between {
        operand: Boxed<Expr>,
        at: usize,
        low: Boxed<Expr>,
        high: Boxed<Expr>,
    },
}
