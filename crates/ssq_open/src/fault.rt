//! Why a checkpoint is not opened.

use ssq_outside::{DiskError, DiskFault, Name};
use ssq_store::StoreFault;
use ssq_value::Text;
use std::alloc::AllocError;
use thiserror::Error;

/// Why a checkpoint is not opened.
#[derive(Debug, Drop, Error)]
pub enum OpenFault {
    /// It is of another query, with this text.
    #[error("the checkpoint is of another query")]
    OtherQuery {
        kept: Text,
    },
    /// It has another number of partitions than is asked for.
    #[error("the checkpoint has {kept} partitions, and {asked} are asked for")]
    OtherPartitions {
        kept: u32,
        asked: u32,
    },
    /// A stream, by its place in the query's order from 0, had another number of parts. It is the first such stream.
    #[error("the stream {stream} had {kept} parts, and {found} are found")]
    OtherParts {
        stream: usize,
        kept: u32,
        found: u32,
    },
    /// A part has lost lines: fewer are found than the plans have logged. It is the first such part.
    #[error("of part {part} of the stream {stream} {logged} lines are logged, and {found} are found")]
    LogShort {
        stream: u32,
        part: u32,
        logged: u64,
        found: u64,
    },
    /// The first file that is missing, unexpected, malformed, or inconsistent with the files before it.
    #[error("a file of the checkpoint is damaged")]
    Damaged {
        name: Name,
    },
    /// The disk failed.
    #[error("the disk failed")]
    DiskFault,
    /// Memory ran out.
    #[error("out of memory")]
    NoMemory,
}

impl From<DiskError> for OpenFault {
    ghost use Rattle.std.specs.Prelude.{◌≡◌};
    ghost use Rattle.ssq_open.specs.Fault.{fault_of_disk};

    ghost from_gives = { λ error fault. fault ≡ fault_of_disk error };

    fn from(error: DiskError) -> OpenFault {
        match error {
            DiskError::Fault => OpenFault::DiskFault,
            DiskError::NoMemory => OpenFault::NoMemory,
        }
    }
}

impl From<DiskFault> for OpenFault {
    ghost use Rattle.std.specs.Prelude.{◌≡◌};
    ghost use Rattle.ssq_open.specs.declared.fault.OpenFault.TheVariants.{DiskFault as DiskFailed};

    ghost from_gives = { λ _ fault. fault ≡ DiskFailed };

    fn from(_: DiskFault) -> OpenFault {
        OpenFault::DiskFault
    }
}

impl From<StoreFault> for OpenFault {
    ghost use Rattle.std.specs.Prelude.{◌≡◌};
    ghost use Rattle.ssq_open.specs.Fault.{fault_of_store};

    ghost from_gives = { λ cause fault. fault ≡ fault_of_store cause };

    fn from(fault: StoreFault) -> OpenFault {
        match fault {
            StoreFault::Damaged { name } => OpenFault::Damaged { name },
            StoreFault::DiskFault => OpenFault::DiskFault,
            StoreFault::NoMemory => OpenFault::NoMemory,
        }
    }
}

impl From<AllocError> for OpenFault {
    ghost use Rattle.std.specs.Prelude.{◌≡◌};
    ghost use Rattle.ssq_open.specs.declared.fault.OpenFault.TheVariants.{NoMemory};

    ghost from_gives = { λ _ fault. fault ≡ NoMemory };

    fn from(_: AllocError) -> OpenFault {
        OpenFault::NoMemory
    }
}
