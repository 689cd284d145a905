//! Why a state is not loaded, and why a file of it is not sealed.

use ssq_outside::{DiskError, Name, StageError};
use std::alloc::AllocError;
use thiserror::Error;

/// Why a state is not loaded.
#[derive(Clone, Copy, Debug, Error)]
pub enum StoreFault {
    /// The first file that is needed and is missing or malformed.
    #[error("a file of the state is damaged")]
    Damaged { name: Name },
    /// The disk failed.
    #[error("the disk failed")]
    DiskFault,
    /// Memory ran out.
    #[error("out of memory")]
    NoMemory,
}

impl From<DiskError> for StoreFault {
    ghost use Rattle.std.specs.Prelude.{◌≡◌};
    ghost use Rattle.ssq_store.specs.Fault.{fault_of_disk};

    ghost from_gives = { λ error fault. fault ≡ fault_of_disk error };

    fn from(error: DiskError) -> StoreFault {
        match error {
            DiskError::Fault => StoreFault::DiskFault,
            DiskError::NoMemory => StoreFault::NoMemory,
        }
    }
}

impl From<AllocError> for StoreFault {
    ghost use Rattle.std.specs.Prelude.{◌≡◌};
    ghost use Rattle.ssq_store.specs.declared.fault.StoreFault.TheVariants.{NoMemory};

    ghost from_gives = { λ _ fault. fault ≡ NoMemory };

    fn from(_: AllocError) -> StoreFault {
        StoreFault::NoMemory
    }
}

/// Why a file of the state is not sealed.
#[derive(Clone, Copy, Debug, Error)]
pub enum SealFault {
    /// The file aside failed.
    #[error("the disk failed")]
    DiskFault,
    /// Memory ran out.
    #[error("out of memory")]
    NoMemory,
}

impl From<StageError> for SealFault {
    ghost use Rattle.std.specs.Prelude.{◌≡◌};
    ghost use Rattle.ssq_store.specs.Fault.{fault_of_stage};

    ghost from_gives = { λ error fault. fault ≡ fault_of_stage error };

    fn from(error: StageError) -> SealFault {
        match error {
            StageError::Fault => SealFault::DiskFault,
            StageError::NoMemory => SealFault::NoMemory,
        }
    }
}

impl From<AllocError> for SealFault {
    ghost use Rattle.std.specs.Prelude.{◌≡◌};
    ghost use Rattle.ssq_store.specs.declared.fault.SealFault.TheVariants.{NoMemory};

    ghost from_gives = { λ _ fault. fault ≡ NoMemory };

    fn from(_: AllocError) -> SealFault {
        SealFault::NoMemory
    }
}

/// Why a snapshot is not sealed.
#[derive(Clone, Copy, Debug, Error)]
pub enum SnapshotFault {
    /// The first file that is needed and is missing or malformed.
    #[error("a file of the state is damaged")]
    Damaged { name: Name },
    /// The file aside failed.
    #[error("the disk failed")]
    DiskFault,
    /// Memory ran out.
    #[error("out of memory")]
    NoMemory,
}

impl From<StoreFault> for SnapshotFault {
    ghost use Rattle.std.specs.Prelude.{◌≡◌};
    ghost use Rattle.ssq_store.specs.Fault.{snapshot_fault};

    ghost from_gives = { λ cause fault. fault ≡ snapshot_fault cause };

    fn from(fault: StoreFault) -> SnapshotFault {
        match fault {
            StoreFault::Damaged { name } => SnapshotFault::Damaged { name },
            StoreFault::DiskFault => SnapshotFault::DiskFault,
            StoreFault::NoMemory => SnapshotFault::NoMemory,
        }
    }
}

impl From<StageError> for SnapshotFault {
    ghost use Rattle.std.specs.Prelude.{◌≡◌};
    ghost use Rattle.ssq_store.specs.Fault.{snapshot_fault_of_stage};

    ghost from_gives = { λ error fault. fault ≡ snapshot_fault_of_stage error };

    fn from(error: StageError) -> SnapshotFault {
        match error {
            StageError::Fault => SnapshotFault::DiskFault,
            StageError::NoMemory => SnapshotFault::NoMemory,
        }
    }
}

impl From<AllocError> for SnapshotFault {
    ghost use Rattle.std.specs.Prelude.{◌≡◌};
    ghost use Rattle.ssq_store.specs.declared.fault.SnapshotFault.TheVariants.{NoMemory};

    ghost from_gives = { λ _ fault. fault ≡ NoMemory };

    fn from(_: AllocError) -> SnapshotFault {
        SnapshotFault::NoMemory
    }
}
