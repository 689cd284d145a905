//! Why logs are not taken for a run.

use ssq_outside::InputError;
use std::alloc::AllocError;
use thiserror::Error;

/// Why the parts of a query's streams are not counted.
#[derive(Clone, Copy, Debug, Error)]
pub enum PartsFault {
    /// A stream, by its place in the order of FROM, has more than 64 parts. It is the first such stream.
    #[error("stream {stream} has more than 64 parts")]
    Full { stream: usize },
    /// The inputs failed.
    #[error("the inputs failed")]
    LogFault,
    /// Memory ran out.
    #[error("out of memory")]
    NoMemory,
}

impl From<AllocError> for PartsFault {
    ghost use Rattle.std.specs.Prelude.{◌≡◌};
    ghost use Rattle.ssq_logs.specs.declared.fault.PartsFault.TheVariants.{NoMemory};

    ghost from_gives = { λ _ fault. fault ≡ NoMemory };

    fn from(_: AllocError) -> PartsFault {
        PartsFault::NoMemory
    }
}

impl From<InputError> for PartsFault {
    ghost use Rattle.std.specs.Prelude.{◌≡◌};
    ghost use Rattle.ssq_logs.specs.Parts.{fault_of_input};

    ghost from_gives = { λ error fault. fault ≡ fault_of_input error };

    fn from(error: InputError) -> PartsFault {
        match error {
            InputError::Fault => PartsFault::LogFault,
            InputError::NoMemory => PartsFault::NoMemory,
        }
    }
}

/// Why the lines of the logs are not counted.
#[derive(Clone, Copy, Debug, Error)]
pub enum LengthFault {
    /// A part, by its place among all parts, has more than 1099511627776 lines. It is the first such part.
    #[error("part {number} has {lines} lines")]
    Full { number: usize, lines: u64 },
    /// A log failed.
    #[error("a log failed")]
    LogFault,
    /// Memory ran out.
    #[error("out of memory")]
    NoMemory,
}

impl From<AllocError> for LengthFault {
    ghost use Rattle.std.specs.Prelude.{◌≡◌};
    ghost use Rattle.ssq_logs.specs.declared.fault.LengthFault.TheVariants.{NoMemory};

    ghost from_gives = { λ _ fault. fault ≡ NoMemory };

    fn from(_: AllocError) -> LengthFault {
        LengthFault::NoMemory
    }
}
