//! Why words give no command.
ghost use Rattle.std.specs.Prelude.{◌≡◌, ◌≢◌};
ghost use Rattle.clap.specs.Words.{kind_of};

use clap::error::ErrorKind;
use std::alloc::AllocError;
use thiserror::Error;

/// Why words give no command.
#[derive(Clone, Copy, Debug, PartialEq, Eq, Error)]
pub enum AskError {
    /// The words are no command of the program; a call for help or for the version is none.
    #[error("the words are no command")]
    Usage,
    /// Memory ran out.
    #[error("out of memory")]
    NoMemory,
}

impl AskError {
    /// What clap's error comes to.
    pub(crate) fn of(error: &clap::Error) -> AskError
        ensures { result ≡ AskError.Usage → kind_of error.now ≢ ErrorKind.OutOfMemory }
    {
        match error.kind() {
            ErrorKind::OutOfMemory => AskError::NoMemory,
            _ => AskError::Usage,
        }
    }
}

impl From<AllocError> for AskError {
    ghost use Rattle.std.specs.Prelude.{◌≡◌};
    ghost use Rattle.ssq_words.specs.declared.error.AskError.{AskError};
    ghost use Rattle.ssq_words.specs.declared.error.AskError.TheVariants.{NoMemory};

    ghost from_gives = { λ _ e. e ≡ NoMemory };

    fn from(_error: AllocError) -> AskError {
        AskError::NoMemory
    }
}
