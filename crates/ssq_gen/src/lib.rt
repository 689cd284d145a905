//! Generated input: a query over a stream of two parts, and the lines of these, in memory; and what comes of it, as counts.
#![tactic(auto)]

mod counts;
mod fault;
mod generated;
mod lines;

pub use counts::counts_line;
pub use fault::CountsFault;
pub use generated::{QUERY, QUERY_NAME, made};
