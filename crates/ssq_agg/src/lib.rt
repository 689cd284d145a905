//! The step of a grouped query: what an epoch's rows change in the groups of a partition, and what it shows of them.
#![tactic(auto)]

mod changed;
mod epoch;
mod groups;
mod kept;
mod laws;
mod show;
mod shown;
mod total;
mod total_bytes;
mod totals;

pub use epoch::step;
pub use laws::few_rows_are_steady;
