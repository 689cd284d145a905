//! The step of a join: which pairs of rows and which rows without a partner an epoch shows, and what that changes in the rows of a partition.
#![tactic(auto)]

mod bytes;
mod changed;
mod epoch;
mod judge;
mod meet;
mod near;
mod over;
mod taking;

pub use epoch::step;
