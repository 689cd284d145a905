//! Where a text has no token, and why.

ghost use Rattle.std.specs.Prelude.{◌≡◌};
ghost use Rattle.ssq_lex.specs.declared.fault.LexFault.TheVariants.{NoMemory};

use std::alloc::AllocError;
use thiserror::Error;

/// What is wrong where a text has no token.
#[derive(Clone, Copy, Debug, PartialEq, Eq)]
pub enum LexCause {
    /// A character outside quoted texts and comments that begins no token.
    BadChar,
    /// A number above 9223372036854775807; its place is its first digit.
    BadNumber,
    /// A quoted text without its end; its place is its opening quote.
    Unclosed,
}

/// The first place, in bytes, at which a text has no token, and what is wrong there.
#[derive(Clone, Copy, Debug, PartialEq, Eq)]
pub struct Refusal {
    pub at: usize,
    pub cause: LexCause,
}

/// Why a text was not cut into tokens.
#[derive(Debug, Drop, Error)]
pub enum LexFault {
    /// The first place, in bytes, at which the text has no token, and what is wrong there.
    #[error("{cause:?} at {at}")]
    Refused { at: usize, cause: LexCause },
    #[error("out of memory")]
    NoMemory,
}

impl From<AllocError> for LexFault {
    ghost from_gives = { λ _ fault. fault ≡ NoMemory };

    fn from(_error: AllocError) -> LexFault {
        LexFault::NoMemory
    }
}
