//! Standard output.

ghost use Rattle.std.specs.Prelude.{◌≡◌, []};

use crate::faults::raise;
use ssq_outside::{OutError, Output};
use std::io;

/// The standard output of a runtime.
///
/// Each put is written at once, whole: nothing waits in a buffer.
#[derive(Drop)]
pub struct StandardOutput<R> {
    rt: R,
    faults: u64,
}

impl<R: Print + Drop> StandardOutput<R> {
    /// The standard output of this runtime.
    pub fn new(rt: R) -> StandardOutput<R>
        ensures count { ⟦<StandardOutput<R> as Output>⟧.faults result ≡ 0 }
    {
        StandardOutput { rt, faults: 0 }
    }
}

impl<R: Print + Drop> Output for StandardOutput<R> {
    ghost tells = { ⊥ };

    ghost content = { λ _. [] };

    ghost faults = { λ out. out.faults };

    ghost sure = { λ _. ⊥ };

    fn put(&mut self, bytes: &[u8]) -> Result<(), OutError> {
        match self.rt.write_all(bytes) {
            Ok(()) => Ok(()),
            Err(_) => {
                raise(&mut self.faults);
                Err(OutError::Fault)
            }
        }
    }
}
