//! What is wrong with a line.

use ssq_json::BadRow;
use thiserror::Error;

/// What is wrong with a line: a fault of its epoch.
#[derive(Debug, Drop, Error)]
pub enum LineFault {
    /// The line is bad, with the first cause; it is never that memory ran out.
    #[error("the line is bad")]
    Bad(BadRow),
    /// What is evaluated on its row is outside of its type's range.
    #[error("a result is outside of its type's range")]
    Overflow,
}
