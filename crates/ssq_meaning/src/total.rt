//! What is kept of an aggregate of a group.

use ssq_value::Value;

/// What the rows of a group come to so far, for one aggregate. NULLs are skipped.
#[derive(Drop)]
pub enum Total {
    /// `COUNT`: how many values there are.
    Count(u64),
    /// `SUM`: how many values there are, and their exact sum.
    Sum { count: u64, sum: i128 },
    /// `MIN`: the least value, NULL where there is none.
    Least(Value),
    /// `MAX`: the greatest value, NULL where there is none.
    Greatest(Value),
}
