//! A query that is bound: its streams, its typed expressions and its shape, as plain values; and the definition of
//! what an expression is on a row.
//!
//! The definitions stand in `specs/`: `Evaluation` says what an expression is on a row or on a group, `Kinds` when it
//! is well typed, `Plain` what a query without state shows for a row, `Late` by what time rows are late, `Boxes` that an expression in a box is itself.
//! What evaluates expressions is proved against them.
#![tactic(auto)]

mod bound;
mod late;
mod laws;
mod typed;

pub use bound::{
    Aggregate, Bound, Direction, Function, GroupKey, Grouping, Job, JoinKind, Joining, KeyPair,
    Mode, Output, Shape, SortKey, Stream, TimeBound,
};
pub use late::{
    TimeKey, closes, event_column, event_of, event_part, is_column_of, is_event, is_window_of,
    time_key, window_part,
};
pub use laws::{
    groups_have_their_kind, groups_stay_printable, times_stay_printable, values_have_their_kind,
    values_stay_fit,
};
pub use typed::{Arithmetic, Comparison, Typed};
