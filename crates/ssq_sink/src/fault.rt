//! Why there is no table.

use ssq_outside::{DiskError, Name};
use std::alloc::AllocError;
use thiserror::Error;

/// Why there is no table.
#[derive(Clone, Copy, Debug, Error)]
pub enum SinkFault {
    /// The first sink file that is missing below another, or does not have canonical rows of the query.
    #[error("a sink file is damaged")]
    Damaged { name: Name },
    /// The disk failed.
    #[error("the disk failed")]
    DiskFault,
    /// Memory ran out.
    #[error("out of memory")]
    NoMemory,
}

impl From<DiskError> for SinkFault {
    ghost use Rattle.std.specs.Prelude.{◌≡◌};
    ghost use Rattle.ssq_sink.specs.Fault.{fault_of_disk};

    ghost from_gives = { λ error fault. fault ≡ fault_of_disk error };

    fn from(error: DiskError) -> SinkFault {
        match error {
            DiskError::Fault => SinkFault::DiskFault,
            DiskError::NoMemory => SinkFault::NoMemory,
        }
    }
}

impl From<AllocError> for SinkFault {
    ghost use Rattle.std.specs.Prelude.{◌≡◌};
    ghost use Rattle.ssq_sink.specs.declared.fault.SinkFault.TheVariants.{NoMemory};

    ghost from_gives = { λ _ fault. fault ≡ NoMemory };

    fn from(_: AllocError) -> SinkFault {
        SinkFault::NoMemory
    }
}
