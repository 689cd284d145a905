//! The step of a query that deduplicates: which of an epoch's rows are no repeats, and what they change in the keys of a partition.
#![tactic(auto)]

mod epoch;

pub use epoch::step;
