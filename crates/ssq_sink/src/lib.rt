//! The texts of sink files, and the table that a reader makes of them.
#![tactic(auto)]

mod columns;
mod epoch;
mod fault;
mod kept;
mod latest;
mod order;
mod reading;

pub use columns::Columns;
pub use epoch::{epoch_text, order_is_free};
pub use fault::SinkFault;
pub use order::row_orders_are_total;
pub use reading::{Counted, Reading, counted_table, table};
