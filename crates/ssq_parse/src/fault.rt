//! Why a file was not read as a query, and where.

ghost use Rattle.std.specs.Prelude.{◌≡◌};
ghost use Rattle.ssq_parse.specs.declared.fault.ParseFault.TheVariants as fault;
ghost use Rattle.ssq_parse.specs.declared.fault.Stop.TheVariants as stop;

use std::alloc::AllocError;
use thiserror::Error;

/// What is wrong with a query file.
#[derive(Clone, Copy, Debug, PartialEq, Eq)]
pub enum ParseCause {
    /// The file has more than 65,536 bytes; its place is 65536.
    TooLong,
    /// A byte that belongs to no UTF-8 character.
    NotUtf8,
    /// A character outside quoted texts and comments that begins no token.
    BadChar,
    /// A number above 9223372036854775807; its place is its first digit.
    BadNumber,
    /// A quoted text without its end; its place is its opening quote.
    Unclosed,
    /// A text that is no span of time or no moment, where the grammar has one; its place is its opening quote.
    BadText,
    /// A token that the grammar has no place for, or the file's end where it goes on.
    Expected,
    /// The operator with which a tree grows higher than 64, or the 65th parenthesis that stands open.
    TooDeep,
}

/// Why a file was not read as a query.
#[derive(Debug, Drop, Error)]
pub enum ParseFault {
    /// The first place, in bytes, at which the file is no query, and what is wrong there.
    #[error("{cause:?} at {at}")]
    Refused { at: usize, cause: ParseCause },
    #[error("out of memory")]
    NoMemory,
}

impl From<AllocError> for ParseFault {
    ghost from_gives = { λ _ made. made ≡ fault.NoMemory };

    fn from(_error: AllocError) -> ParseFault {
        ParseFault::NoMemory
    }
}

/// Why the tokens of a file were not read as a query.
#[derive(Drop)]
pub(crate) enum Stop {
    /// The first place of a fault, which is none where the tokens end too early.
    Refused {
        at: Option<usize>,
        cause: ParseCause,
    },
    NoMemory,
}

impl From<AllocError> for Stop {
    ghost from_gives = { λ _ made. made ≡ stop.NoMemory };

    fn from(_error: AllocError) -> Stop {
        Stop::NoMemory
    }
}
