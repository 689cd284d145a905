//! Queries as they are written: their tree, their grammar and their canonical text.
//!
//! The grammar stands in `specs/`, as trees of what is written, each with its words.
#![tactic(auto)]

mod canonical;
mod expr;
mod part;
mod print;
mod query;

pub use canonical::{text, text_is_read_again, text_is_sayable};
pub use expr::{BinaryOp, ColumnRef, Expr, Function, Ident, Moment, NullTest, Span, UnaryOp};
pub use query::{
    ColumnDecl, Condition, Deduplicate, Direction, Group, GroupBy, Item, Join, JoinKind, Limit,
    Mode, OrderBy, Query, Select, Stream, Watermark, Window,
};
