//! The greatest event times that a query has seen, and the watermark that they give.
#![tactic(auto)]

mod mark;
mod seen;

pub use mark::watermark;
pub use seen::{Seen, raise};
