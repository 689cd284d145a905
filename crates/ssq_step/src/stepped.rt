//! What a step gives.

use ssq_value::Row;
use ssq_version::Change;

/// What a step changes and shows.
#[derive(Drop)]
pub struct Stepped {
    /// What changes in the state: a key that new rows touch has what they make of it, and a key that is closed goes.
    pub change: Change,
    /// The rows that the epoch shows, in no order.
    pub rows: Vec<Row>,
}
