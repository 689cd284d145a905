//! Query files and the logs that streams read.

ghost use Rattle.std.specs.Prelude.{◌≡◌, ◌+◌, ◌-◌, ◌^◌, ◌<◌, ◌≤◌, ◌++◌, ◌∷◌, [], ℕ, List, Some, length, take, min, slice_get, IfOk, IfErr, OnOk, OnErr, IsErrOf};
ghost use Rattle.ssq_outside.specs.Faults.{Rises, StaysSure};
ghost use Rattle.ssq_outside.specs.Logs.{Held, Line};

use std::alloc::Global;
use thiserror::Error;

/// Why a file, a number of parts or a log was not had.
#[derive(Clone, Copy, Debug, PartialEq, Eq, Error)]
pub enum InputError {
    /// The inputs failed.
    #[error("the inputs failed")]
    Fault,
    /// Memory ran out.
    #[error("out of memory")]
    NoMemory,
}

/// A log could not be counted.
#[derive(Clone, Copy, Debug, PartialEq, Eq, Error)]
#[error("the log failed")]
pub struct LogFault;

/// Why a line was not had.
#[derive(Clone, Copy, Debug, PartialEq, Eq, Error)]
pub enum LineError {
    /// The log failed.
    #[error("the log failed")]
    Fault,
    /// Memory ran out.
    #[error("out of memory")]
    NoMemory,
    /// The log has only this many whole lines.
    #[error("the log has {found} lines")]
    Short { found: u64 },
}

/// One part of a stream: lines that end in byte 0x0A. It only grows, and a line that was there reads the same again.
pub trait Log: Drop {
    /// Whether the type tells what it holds.
    ghost tells: { Type 0 };
    /// All the lines that it will come to hold, without their ends.
    ghost lines: { Self → List Line };
    /// How many of them are known to be there.
    ghost available: { Self → ℕ };
    /// What each call of `lines` answered, the first one first.
    ghost answers: { Self → List ℕ };
    /// How often it has failed.
    ghost faults: { Self → ℕ };
    /// It never fails.
    ghost sure: { Self → Type 0 };

    /// How many lines there are now. A last line without its end is not there yet.
    fn lines(&mut self) -> Result<u64, LogFault>
        ensures found { tells → IfOk result (λ n. (available self.new ≡ n) × (n ≤ length (lines self.new))) }
        ensures told { tells → length (answers self.old) < 2 ^ 64 - 1 → IfOk result (λ n. answers self.new ≡ answers self.old ++ n ∷ []) }
        ensures untold { tells → OnErr result (answers self.new ≡ answers self.old) }
        ensures same { tells → lines self.new ≡ lines self.old }
        ensures grown { tells → available self.old ≤ available self.new }
        ensures counted { faults self.old ≤ faults self.new }
        ensures cause { OnErr result (Rises (faults self.old) (faults self.new)) }
        ensures never { sure self.old → StaysSure 0 (faults self.old) (faults self.new) (sure self.new) };

    /// Puts the line at this offset, counted from 0, into the buffer in place of what it held: without its end, and
    /// at most its first 1,048,577 bytes. Where there is no such line it answers how many there are.
    fn line(&mut self, at: u64, into: &mut Vec<u8>) -> Result<(), LineError>
        ensures found { tells → OnOk result ((at < available self.new) × (available self.new ≤ length (lines self.new))) }
        ensures bytes { tells → OnOk result ((line : Line) × (slice_get (lines self.new) at ≡ Some line) × (into.new.items ≡ take 1048577 line)) }
        ensures cap { OnOk result (length into.new.items ≤ 1048577) }
        ensures short { (n : ℕ) → IsErrOf result (LineError.Short n) → n ≤ at }
        ensures short_told { tells → (n : ℕ) → IsErrOf result (LineError.Short n) → available self.new ≡ n }
        ensures unasked { tells → answers self.new ≡ answers self.old }
        ensures same { tells → lines self.new ≡ lines self.old }
        ensures grown { tells → available self.old ≤ available self.new }
        ensures counted { faults self.old ≤ faults self.new }
        ensures cause { IsErrOf result LineError.Fault → Rises (faults self.old) (faults self.new) }
        ensures never { sure self.old → StaysSure 0 (faults self.old) (faults self.new) (sure self.new) };
}

/// The files and streams that a program reads.
pub trait Inputs: Drop {
    type Log: Log;

    /// Whether the type tells what it holds.
    ghost tells: { Type 0 };
    /// What it holds.
    ghost held: { Self → Held };
    /// How many lines of a stream's part are known to be there.
    ghost available: { Self → List ℕ → ℕ → ℕ };
    /// Of each log that was given back, what its `lines` answered: the last one first.
    ghost returned: { Self → List (List ℕ) };
    /// How often it, or a log that was given back, has failed.
    ghost faults: { Self → ℕ };
    /// It never fails.
    ghost sure: { Self → Type 0 };

    /// The first `max` bytes at most of the file of this name. A file that is not there has none.
    fn text(&mut self, alloc: Global, name: &str, max: usize) -> Result<Vec<u8>, InputError>
        ensures found { tells → IfOk result (λ bytes. bytes.items ≡ take max ((held self.old).text name.now)) }
        ensures cap { IfOk result (λ bytes. length bytes.items ≤ max) }
        ensures same { tells → held self.new ≡ held self.old }
        ensures unreturned { tells → returned self.new ≡ returned self.old }
        ensures grown { tells → (stream : List ℕ) (part : ℕ) → available self.old stream part ≤ available self.new stream part }
        ensures counted { faults self.old ≤ faults self.new }
        ensures cause { IsErrOf result InputError.Fault → Rises (faults self.old) (faults self.new) }
        ensures never { sure self.old → StaysSure 0 (faults self.old) (faults self.new) (sure self.new) };

    /// How many parts a stream has: those from 0 to the first that is not there, counted to 65 at most.
    fn parts(&mut self, alloc: Global, stream: &str) -> Result<u32, InputError>
        ensures found { tells → IfOk result (λ n. n ≡ min ((held self.old).parts stream.now) 65) }
        ensures cap { IfOk result (λ n. n ≤ 65) }
        ensures same { tells → held self.new ≡ held self.old }
        ensures unreturned { tells → returned self.new ≡ returned self.old }
        ensures grown { tells → (stream : List ℕ) (part : ℕ) → available self.old stream part ≤ available self.new stream part }
        ensures counted { faults self.old ≤ faults self.new }
        ensures cause { IsErrOf result InputError.Fault → Rises (faults self.old) (faults self.new) }
        ensures never { sure self.old → StaysSure 0 (faults self.old) (faults self.new) (sure self.new) };

    /// Opens a part of a stream. The log begins with the lines that are known to be there, and its count of faults
    /// begins at 0.
    fn log(&mut self, alloc: Global, stream: &str, part: u32) -> Result<Self::Log, InputError>
        requires { tells → part < (held self.old).parts stream.now }
        ensures lines { tells → IfOk result (λ log. Self.Log.lines log ≡ (held self.old).lines stream.now part) }
        ensures begins { tells → IfOk result (λ log. available self.old stream.now part ≤ Self.Log.available log) }
        ensures unasked { tells → IfOk result (λ log. Self.Log.answers log ≡ []) }
        ensures fresh { IfOk result (λ log. Self.Log.faults log ≡ 0) }
        ensures never_log { sure self.old → IfOk result (λ log. Self.Log.sure log) }
        ensures same { tells → held self.new ≡ held self.old }
        ensures unreturned { tells → returned self.new ≡ returned self.old }
        ensures grown { tells → (stream : List ℕ) (part : ℕ) → available self.old stream part ≤ available self.new stream part }
        ensures counted { faults self.old ≤ faults self.new }
        ensures cause { IsErrOf result InputError.Fault → Rises (faults self.old) (faults self.new) }
        ensures never { sure self.old → StaysSure 0 (faults self.old) (faults self.new) (sure self.new) };

    /// Takes a log back, with what it was asked and what it answered: its count of faults is added to this one's.
    fn give_back(&mut self, log: Self::Log)
        ensures added { faults self.new ≡ min (faults self.old + Self.Log.faults log) (2 ^ 64 - 1) }
        ensures same { tells → held self.new ≡ held self.old }
        ensures returned { tells → returned self.new ≡ Self.Log.answers log ∷ returned self.old }
        ensures grown { tells → (stream : List ℕ) (part : ℕ) → available self.old stream part ≤ available self.new stream part }
        ensures never { sure self.old → Self.Log.faults log ≡ 0 → StaysSure 0 (faults self.old) (faults self.new) (sure self.new) };

    /// Where these tell what they hold, so do their logs.
    ghost logs_tell: { tells → Self.Log.tells };
}
