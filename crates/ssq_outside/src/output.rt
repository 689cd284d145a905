//! Where a program writes its lines.

ghost use Rattle.std.specs.Prelude.{◌≡◌, ◌≤◌, ◌++◌, ℕ, List, take, OnOk, OnErr, IsErrOf};
ghost use Rattle.ssq_outside.specs.Faults.{Rises, StaysSure};

use thiserror::Error;

/// Why an output took nothing, or not all.
#[derive(Clone, Copy, Debug, PartialEq, Eq, Error)]
pub enum OutError {
    /// The output failed. A front of the bytes may have been added.
    #[error("the output failed")]
    Fault,
    /// Memory ran out, and nothing was added.
    #[error("out of memory")]
    NoMemory,
}

/// Something that takes bytes, as standard output does.
pub trait Output: Drop {
    /// Whether the type tells what it holds.
    ghost tells: { Type 0 };
    /// The bytes so far.
    ghost content: { Self → List ℕ };
    /// How often it has failed.
    ghost faults: { Self → ℕ };
    /// It never fails.
    ghost sure: { Self → Type 0 };

    /// Adds the bytes.
    fn put(&mut self, bytes: &[u8]) -> Result<(), OutError>
        ensures ok { tells → OnOk result (content self.new ≡ content self.old ++ bytes.now) }
        ensures fault { tells → OnErr result ((n : ℕ) × (content self.new ≡ content self.old ++ take n bytes.now)) }
        ensures no_memory { tells → IsErrOf result OutError.NoMemory → content self.new ≡ content self.old }
        ensures counted { faults self.old ≤ faults self.new }
        ensures cause { IsErrOf result OutError.Fault → Rises (faults self.old) (faults self.new) }
        ensures never { sure self.old → StaysSure 0 (faults self.old) (faults self.new) (sure self.new) };
}
