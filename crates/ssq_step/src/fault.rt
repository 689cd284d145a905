//! Why a step shows nothing.

use ssq_value::Row;
use std::alloc::AllocError;
use thiserror::Error;

/// Why the step of an epoch shows nothing and changes nothing.
#[derive(Debug, Drop, Error)]
pub enum StepFault {
    /// What the epoch shows of this key is outside of its type's range; the key is the least of which that is so.
    #[error("a result is outside of its type's range")]
    Overflow { key: Row },
    /// Memory ran out.
    #[error("out of memory")]
    NoMemory,
}

impl From<AllocError> for StepFault {
    ghost use Rattle.std.specs.Prelude.{◌≡◌};
    ghost use Rattle.ssq_step.specs.declared.fault.StepFault.TheVariants.{NoMemory};

    ghost from_gives = { λ _ fault. fault ≡ NoMemory };

    fn from(_: AllocError) -> StepFault {
        StepFault::NoMemory
    }
}
