//! Binding: the bound query that a query is, where it breaks no rule, and what is told of it.
//!
//! The definitions stand in `specs/`. `Bound` is the bound query, a function of the query; it is put together from
//! `Value` (which typed expression an expression is), `Streams` (what is read), `Shapes` (what is shown, what rows are
//! grouped by, and the order) and `Joins`. `Sound` is what holds of it where no rule is broken. `Typed` is the law of
//! types, `Timed` that of event columns, `Delays` that of delays, `Windows` that of windows, `Limits` that of the limits of
//! groups, `Places` that of places, and `Explained` what is told. Which rules there are, and what names mean, stands in
//! `ssq_check`.
#![tactic(auto)]

mod context;
mod group;
mod join;
mod laws;
mod output;
mod stream;
mod told;
mod value;
mod whole;

pub use context::Context;
pub use join::Parts;
pub use laws::{
    delays_are_spans, events_have_delays, groups_are_limited, places_are_ignored,
    queries_are_typed, queries_read_their_streams, rows_are_typed, time_bounds_lie_around,
    windows_are_fit,
};
pub use told::explain;
pub use whole::{bind, build};
