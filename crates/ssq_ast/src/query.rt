//! Queries as they are written: streams, what is selected of them, and the mode of output.

use crate::expr::{ColumnRef, Expr, Ident, Span};
use ssq_value::{ColType, Sequence, Text};

/// A query file. Every `at` in it is the place of a token in the file: of its first byte, counted from 0.
#[derive(Drop)]
pub struct Query {
    /// The declarations, in the file's order.
    pub streams: Sequence<Stream>,
    pub select: Select,
}

/// `CREATE STREAM s (id BIGINT, ts TIMESTAMP) FROM 's' WATERMARK FOR ts DELAY '1 hour';`
#[derive(Drop)]
pub struct Stream {
    pub at: usize,
    pub name: Ident,
    pub columns: Sequence<ColumnDecl>,
    /// The name of its source, without quotes.
    pub source: Text,
    pub watermark: Option<Watermark>,
}

/// A column of a declaration.
#[derive(Drop)]
pub struct ColumnDecl {
    pub name: Ident,
    pub kind: ColType,
}

/// `WATERMARK FOR ts DELAY '1 hour'`
#[derive(Drop)]
pub struct Watermark {
    pub column: Ident,
    pub delay: Span,
}

/// What is asked of the streams.
#[derive(Drop)]
pub struct Select {
    /// The place of DISTINCT, where it stands.
    pub distinct: Option<usize>,
    pub items: Sequence<Item>,
    pub from: Ident,
    pub join: Option<Join>,
    /// WHERE
    pub filter: Option<Condition>,
    pub deduplicate: Option<Deduplicate>,
    pub group: Option<GroupBy>,
    pub having: Option<Condition>,
    /// ORDER BY; empty where it doesn't stand.
    pub order: Sequence<OrderBy>,
    pub limit: Option<Limit>,
    pub mode: Mode,
}

/// What SELECT gives for each row.
#[derive(Drop)]
pub enum Item {
    /// A column under its own name, `v`, `s.v` or `(v) AS v`.
    Column {
        column: ColumnRef,
        /// The place of its first token, brackets included.
        at: usize,
        /// Where its name is written: after AS where that stands, and else in the column.
        named_at: usize,
    },
    /// `v + 1 AS w`
    Named {
        value: Expr,
        /// The place of its first token, brackets included.
        at: usize,
        name: Ident,
    },
}

/// A condition, at the keyword before it: WHERE, ON or HAVING.
#[derive(Drop)]
pub struct Condition {
    pub at: usize,
    pub value: Expr,
}

/// Which rows without a partner are shown, joined with NULLs.
#[derive(Clone, Copy)]
pub enum JoinKind {
    Inner,
    /// Those of the stream of FROM.
    Left,
    /// Those of the stream of JOIN.
    Right,
}

/// `LEFT JOIN r ON l.id = r.id`, at JOIN.
#[derive(Drop)]
pub struct Join {
    pub kind: JoinKind,
    pub at: usize,
    pub stream: Ident,
    pub on: Condition,
}

/// `DEDUPLICATE BY id, ts`
#[derive(Drop)]
pub struct Deduplicate {
    pub at: usize,
    pub columns: Sequence<Ident>,
}

/// `GROUP BY k, WINDOW(ts, '5 minutes')`
#[derive(Drop)]
pub struct GroupBy {
    pub at: usize,
    pub items: Sequence<Group>,
}

/// What rows are grouped by.
#[derive(Drop)]
pub enum Group {
    Column(Ident),
    Window(Window),
}

/// `WINDOW(ts, '10 minutes', '5 minutes')`
#[derive(Drop)]
pub struct Window {
    pub at: usize,
    pub column: Ident,
    pub size: Span,
    pub slide: Option<Span>,
}

/// Whether the least comes first or the greatest.
#[derive(Clone, Copy)]
pub enum Direction {
    Ascending,
    Descending,
}

/// `n DESC`
#[derive(Drop)]
pub struct OrderBy {
    pub name: Ident,
    pub direction: Direction,
}

/// `LIMIT 3`
#[derive(Drop)]
pub struct Limit {
    pub at: usize,
    pub most: i64,
}

/// Which rows of the result an epoch shows.
#[derive(Clone, Copy)]
pub enum Mode {
    /// Each row once, when no line that comes later can change it.
    Append,
    /// The groups for which the epoch accepted a row. Without groups as in Append.
    Update,
    /// All groups.
    Complete,
}
