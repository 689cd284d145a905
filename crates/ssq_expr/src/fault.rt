//! Why a row was not evaluated.

use std::alloc::AllocError;
use thiserror::Error;

/// Why an expression gave no value.
#[derive(Clone, Copy, Debug, PartialEq, Eq, Error)]
pub enum EvalFault {
    /// A number is outside 64 bits, a time outside the years 0001 to 9999, or a text that `||` made is longer than
    /// 1,048,576 bytes.
    #[error("a result is outside of its type's range")]
    Overflow,
    /// Memory ran out.
    #[error("out of memory")]
    NoMemory,
}

impl From<AllocError> for EvalFault {
    ghost use Rattle.std.specs.Prelude.{◌≡◌};
    ghost use Rattle.ssq_expr.specs.declared.fault.EvalFault.TheVariants as fault;

    ghost from_gives = { λ _ e. e ≡ fault.NoMemory };

    fn from(_: AllocError) -> EvalFault {
        EvalFault::NoMemory
    }
}
