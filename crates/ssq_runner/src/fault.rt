//! Why a run stops.

use ssq_board::Cause;
use ssq_drive::Stopped;
use ssq_logs::{LengthFault, PartsFault};
use ssq_open::OpenFault;
use ssq_value::Row;
use std::alloc::AllocError;
use thiserror::Error;

/// Why a run stopped before its rounds were done and told, by what it was at.
#[derive(Debug, Drop, Error)]
pub enum RunFault {
    /// The parts of a stream were counted, or a log was opened.
    #[error("the parts are not opened")]
    Parts(PartsFault),
    /// The lines of the logs were counted.
    #[error("the lines are not counted")]
    Lines(LengthFault),
    /// The checkpoint was opened.
    #[error("the checkpoint is not opened")]
    Open(OpenFault),
    /// A round was run.
    #[error("a round stopped")]
    Round(Cause),
    /// What an epoch shows of this key is outside of its type's range: it is the least such key of the epoch.
    #[error("an epoch overflows on a key")]
    KeyOverflow { key: Row },
    /// The output failed.
    #[error("the output failed")]
    OutFault,
    /// Memory ran out.
    #[error("out of memory")]
    NoMemory,
}

impl From<PartsFault> for RunFault {
    ghost use Rattle.std.specs.Prelude.{◌≡◌};
    ghost use Rattle.ssq_runner.specs.declared.fault.RunFault.TheVariants.{Parts};

    ghost from_gives = { λ error fault. fault ≡ Parts error };

    fn from(error: PartsFault) -> RunFault {
        RunFault::Parts(error)
    }
}

impl From<AllocError> for RunFault {
    ghost use Rattle.std.specs.Prelude.{◌≡◌};
    ghost use Rattle.ssq_runner.specs.declared.fault.RunFault.TheVariants.{NoMemory};

    ghost from_gives = { λ _ fault. fault ≡ NoMemory };

    fn from(_: AllocError) -> RunFault {
        RunFault::NoMemory
    }
}

impl From<Stopped> for RunFault {
    ghost use Rattle.std.specs.Prelude.{◌≡◌};
    ghost use Rattle.ssq_runner.specs.Faults.{fault_of};

    ghost from_gives = { λ stopped fault. fault ≡ fault_of stopped };

    fn from(stopped: Stopped) -> RunFault {
        let Stopped { cause, key } = stopped;
        match (cause, key) {
            (Cause::KeyOverflow, Some(key)) => RunFault::KeyOverflow { key },
            (cause, _) => RunFault::Round(cause),
        }
    }
}

impl From<LengthFault> for RunFault {
    ghost use Rattle.std.specs.Prelude.{◌≡◌};
    ghost use Rattle.ssq_runner.specs.declared.fault.RunFault.TheVariants.{Lines};

    ghost from_gives = { λ error fault. fault ≡ Lines error };

    fn from(error: LengthFault) -> RunFault {
        RunFault::Lines(error)
    }
}

impl From<OpenFault> for RunFault {
    ghost use Rattle.std.specs.Prelude.{◌≡◌};
    ghost use Rattle.ssq_runner.specs.declared.fault.RunFault.TheVariants.{Open};

    ghost from_gives = { λ error fault. fault ≡ Open error };

    fn from(error: OpenFault) -> RunFault {
        RunFault::Open(error)
    }
}
