//! Which partition a key belongs to, and items apart by partition.
#![tactic(auto)]

mod buckets;
mod hash;

pub use buckets::Buckets;
pub use hash::place;
