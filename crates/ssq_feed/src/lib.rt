//! The map task: the new lines of a part, from its log to the rows that the query's operator takes, apart by partition.
#![tactic(auto)]

mod dealer;
mod fault;
mod handed;
mod key_values;
mod law;
mod line;
mod query;
mod range;
mod starts;
mod task;
mod times;

pub use fault::FeedFault;
pub use law::buckets_are_partitions;
pub use task::{Fed, FedRows, MapTask, feed};
