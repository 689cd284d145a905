//! Bound queries.

use crate::typed::Typed;
use ssq_value::{ColType, Schema, Sequence, Text};

/// Which rows an epoch shows.
#[derive(Clone, Copy, PartialEq, Eq)]
pub enum Mode {
    /// Those that will not change any more.
    Append,
    /// The groups for which the epoch accepted a row. Without groups as in Append.
    Update,
    /// All.
    Complete,
}

/// What a query keeps from epoch to epoch, and what it does with its rows.
#[derive(Drop)]
pub enum Shape {
    /// Nothing is kept: each row is filtered and shown by itself.
    Plain,
    /// Rows are grouped, and aggregates are kept of each group.
    Group(Grouping),
    /// Of rows that are equal in these columns, in the order of DEDUPLICATE, the first is shown. A column is named by
    /// its index in the row.
    Dedup(Sequence<usize>),
    /// The rows of two streams are paired.
    Join(Joining),
}

/// GROUP BY, the aggregates and HAVING.
///
/// WHERE, the keys and the arguments of aggregates are evaluated on rows. SELECT and HAVING are evaluated on groups: a
/// column is the key of this index, where a window's value is its start, and [`Typed::Aggregate`] names an aggregate.
#[derive(Drop)]
pub struct Grouping {
    /// What rows are grouped by, in the order of GROUP BY; empty where there is none, and all rows are one group.
    pub keys: Sequence<GroupKey>,
    /// Those of SELECT from the left, then those of HAVING. One that is written twice stands here twice.
    pub aggregates: Sequence<Aggregate>,
    pub having: Option<Typed>,
}

/// What rows are grouped by. A column is named by its index in the row.
#[derive(Clone, Copy)]
pub enum GroupKey {
    Column(usize),
    /// The windows that hold the column's time. Sizes are in microseconds, and `slide` is not above `size`.
    Window {
        column: usize,
        size: i64,
        slide: i64,
    },
}

/// A function of a group's rows.
#[derive(Clone, Copy)]
pub enum Function {
    Count,
    Sum,
    Min,
    Max,
}

/// A function of a group's rows, with its argument, which is evaluated on each row. `COUNT(*)` has none.
#[derive(Drop)]
pub struct Aggregate {
    pub function: Function,
    pub argument: Option<Typed>,
}

/// Which rows without a partner are shown, joined with NULLs.
#[derive(Clone, Copy, PartialEq, Eq)]
pub enum JoinKind {
    Inner,
    /// Those of the left stream.
    Left,
    /// Those of the right stream.
    Right,
}

/// `l.c = r.c`: the columns' indices, each in the row of its own stream.
#[derive(Clone, Copy)]
pub struct KeyPair {
    pub left: usize,
    pub right: usize,
}

/// `r.t BETWEEN l.t + lo AND l.t + hi`: the columns' indices, each in the row of its own stream, and microseconds. `lo`
/// is not above 0, and `hi` not below.
#[derive(Clone, Copy)]
pub struct TimeBound {
    pub left: usize,
    pub right: usize,
    pub lo: i64,
    pub hi: i64,
}

/// JOIN and ON. A joined row has the columns of the left row, and then those of the right one; WHERE and SELECT are
/// evaluated on it.
#[derive(Drop)]
pub struct Joining {
    pub kind: JoinKind,
    /// The key equalities, in the order of ON.
    pub keys: Sequence<KeyPair>,
    pub bound: Option<TimeBound>,
    /// What else ON joins by AND, in its order, on joined rows.
    pub rest: Sequence<Typed>,
}

/// Whether the least comes first or the greatest.
#[derive(Clone, Copy)]
pub enum Direction {
    Ascending,
    Descending,
}

/// What ORDER BY sorts by: the output of this index.
#[derive(Clone, Copy)]
pub struct SortKey {
    pub output: usize,
    pub direction: Direction,
}

/// A stream that the query reads.
#[derive(Drop)]
pub struct Stream {
    /// The name under which it was declared.
    pub name: Text,
    /// The name of its source, without quotes.
    pub source: Text,
    /// Its columns. A watermarked stream has an event column.
    pub schema: Schema,
    /// How late a row may come, in microseconds, where the stream is watermarked.
    pub delay: Option<i64>,
}

/// A column of the result.
#[derive(Drop)]
pub struct Output {
    pub name: Text,
    pub kind: ColType,
    /// What SELECT gives in it for each row, or for each group.
    pub value: Typed,
    /// The index of the group's key that the item is, where it is that column alone, or the start or the end of the
    /// window that is that key.
    pub key: Option<usize>,
}

/// A query whose names are bound and whose types were checked.
#[derive(Drop)]
pub struct Bound {
    /// The canonical text of the query.
    pub text: Text,
    /// The streams, in the order of FROM.
    pub streams: Sequence<Stream>,
    pub mode: Mode,
    pub shape: Shape,
    /// The condition of WHERE, where there is one.
    pub filter: Option<Typed>,
    /// The columns of the result, in the order of SELECT.
    pub outputs: Sequence<Output>,
    /// ORDER BY; empty where there is none.
    pub order: Sequence<SortKey>,
}

/// A query with how its work is divided.
#[derive(Drop)]
pub struct Job {
    pub bound: Bound,
    /// The number of partitions of the state.
    pub partitions: u32,
    /// The number of parts of each stream, in the order of FROM.
    pub parts: Sequence<u32>,
}
