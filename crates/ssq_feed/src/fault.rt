//! Why a map task brings no rows.

use ssq_json::BadRow;
use std::alloc::AllocError;
use thiserror::Error;

/// Why a map task brings no rows. Offsets count the part's lines from 0.
#[derive(Debug, Drop, Error)]
pub enum FeedFault {
    /// The first faulty line of the range: it is bad, with the first cause. That memory ran out is told apart.
    #[error("line {offset} is bad")]
    BadLine { offset: u64, cause: BadRow },
    /// The first faulty line of the range: WHERE, or where that is TRUE an item of SELECT or an argument of an aggregate, is outside of its
    /// type's range.
    #[error("a result on line {offset} is outside of its type's range")]
    Overflow { offset: u64 },
    /// The log failed.
    #[error("the log failed")]
    LogFault,
    /// The log has fewer lines than the range's end.
    #[error("the log has {found} lines, and {logged} were logged")]
    LogShort { logged: u64, found: u64 },
    /// Memory ran out.
    #[error("out of memory")]
    NoMemory,
}

impl From<AllocError> for FeedFault {
    ghost use Rattle.std.specs.Prelude.{◌≡◌};
    ghost use Rattle.ssq_feed.specs.declared.fault.FeedFault.TheVariants.{NoMemory};

    ghost from_gives = { λ _ fault. fault ≡ NoMemory };

    fn from(_: AllocError) -> FeedFault {
        FeedFault::NoMemory
    }
}
