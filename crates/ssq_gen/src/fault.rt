//! Why the rows of a table are not counted.

use std::alloc::AllocError;
use thiserror::Error;

/// Why the rows of a table are not counted.
#[derive(Clone, Copy, Debug, Error)]
pub enum CountsFault {
    /// The table is not rows of these columns, one line each.
    #[error("the table is no rows")]
    NotRows,
    /// Memory ran out.
    #[error("out of memory")]
    NoMemory,
}

impl From<AllocError> for CountsFault {
    ghost use Rattle.std.specs.Prelude.{◌≡◌};
    ghost use Rattle.ssq_gen.specs.declared.fault.CountsFault.TheVariants.{NoMemory};

    ghost from_gives = { λ _ fault. fault ≡ NoMemory };

    fn from(_: AllocError) -> CountsFault {
        CountsFault::NoMemory
    }
}
