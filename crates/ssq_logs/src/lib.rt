//! The logs of a job, part by part: how many parts its streams have, their logs, how many lines these have, and their return.
//!
//! The definitions are in `specs/`: `Parts` says which parts a query's streams have, `Opened` which logs were opened, `Asked` what a log
//! was asked, and `Went` what becomes of the inputs.
#![tactic(auto)]

mod fault;
mod give;
mod lengths;
mod open;
mod parts;

pub use fault::{LengthFault, PartsFault};
pub use give::give_back;
pub use lengths::count_lines;
pub use open::{open_logs, room};
pub use parts::count_parts;
