//! A log in memory.

ghost use Rattle.std.specs.Prelude.{◌≡◌, ◌≤◌, ◌++◌, ◌∷◌, ℕ, List, [], ⊤, length, map, replicate, take, IfNone, IfOk, OnOk, OnErr, Err, slice_get, option_map};
ghost use Rattle.ssq_outside.specs.Faults.{StaysSure};
ghost use Rattle.ssq_fakes.specs.Logs.{lines_after};

use crate::faults::Faults;
use crate::returned::{Answers, Returned};
use ssq_outside::{LineError, Log, LogFault};
use std::alloc::{AllocError, Global};
use std::mem;
use std::sync::Arc;

/// How much of a line is handed out: one byte more than the longest that is taken.
const LONGEST: usize = 1_048_577;

/// The lines of a log, without their ends.
#[derive(Drop)]
enum Lines {
    /// These.
    Each(Vec<Vec<u8>>),
    /// One, so many times.
    Same(Vec<u8>, u64),
}

impl Lines {
    ghost use Rattle.ssq_fakes.specs.Logs.{lines_of};

    fn count(&self) -> u64
        ensures { result ≡ length (lines_of self.now) }
    {
        match self {
            Lines::Each(lines) => lines.len() as u64,
            Lines::Same(_, n) => *n,
        }
    }

    fn get(&self, at: u64) -> Option<&[u8]>
        ensures found { option_map (λ line. line.now) result ≡ slice_get (lines_of self.now) at }
        ensures none { IfNone result (length (lines_of self.now) ≤ at) }
    {
        match self {
            Lines::Each(lines) => {
                let line = lines.get(at as usize)?;
                Some(line.as_slice())
            }
            Lines::Same(line, n) => { if at < *n { Some(line.as_slice()) } else { None } }
        }
    }
}

/// Lines that are all there from the start. Copies share them.
#[derive(Drop)]
pub struct MemLog {
    lines: Arc<Lines>,
    /// How often `lines` answered.
    asked: u64,
    /// Room for what it answered, where it is given back.
    room: Box<Returned>,
    pub(crate) faults: Faults<Vec<u64>>,
}

impl MemLog {
    ghost use Rattle.ssq_fakes.specs.Logs.{lines_of, log_lines, log_answers, log_faults, log_plan, log_calls, whole_lines};
    ghost use Rattle.ssq_fakes.specs.Returned.{answers_of};

    /// These lines, without their ends. It never fails. Where memory runs out they are lost.
    pub fn of(alloc: Global, lines: Vec<Vec<u8>>) -> Result<Self, AllocError>
        ensures lines { IfOk result (λ log. log_lines log ≡ map (λ line. line.items) lines.items) }
        ensures unasked { IfOk result (λ log. log_answers log ≡ []) }
        ensures count { IfOk result (λ log. log_faults log ≡ 0) }
        ensures calls { IfOk result (λ log. log_calls log ≡ 0) }
        ensures sure { IfOk result (λ log. ⟦<MemLog as Log>⟧.sure log) }
    {
        MemLog::holding(alloc, Lines::Each(lines))
    }

    /// The line, without its end, `n` times, in the room of one. It never fails.
    pub fn repeat(alloc: Global, line: &[u8], n: u64) -> Result<Self, AllocError>
        ensures lines { IfOk result (λ log. log_lines log ≡ replicate n line.now) }
        ensures unasked { IfOk result (λ log. log_answers log ≡ []) }
        ensures count { IfOk result (λ log. log_faults log ≡ 0) }
        ensures calls { IfOk result (λ log. log_calls log ≡ 0) }
        ensures sure { IfOk result (λ log. ⟦<MemLog as Log>⟧.sure log) }
    {
        MemLog::holding(alloc, Lines::Same(line.to_vec(alloc)?, n))
    }

    /// The lines of these bytes: the parts that end in byte 0x0A, without their ends. A last part without an end is
    /// not there. It never fails.
    pub fn torn(alloc: Global, bytes: &[u8]) -> Result<Self, AllocError>
        ensures lines { IfOk result (λ log. log_lines log ≡ whole_lines bytes.now) }
        ensures unasked { IfOk result (λ log. log_answers log ≡ []) }
        ensures count { IfOk result (λ log. log_faults log ≡ 0) }
        ensures calls { IfOk result (λ log. log_calls log ≡ 0) }
        ensures sure { IfOk result (λ log. ⟦<MemLog as Log>⟧.sure log) }
    {
        let mut lines = Vec::new(alloc);
        let mut line = Vec::new(alloc);
        for byte in bytes {
            take_byte(alloc, &mut lines, &mut line, *byte)?;
        }
        MemLog::of(alloc, lines)
    }

    /// The same, where the calls of `lines` and `line` with these numbers, from 0, fail.
    pub fn failing(mut self, calls: Vec<u64>) -> Self
        ensures lines { log_lines result ≡ log_lines self }
        ensures answers { log_answers result ≡ log_answers self }
        ensures count { log_faults result ≡ log_faults self }
        ensures plan { log_plan result ≡ calls.items }
        ensures calls { log_calls result ≡ log_calls self }
    {
        self.faults.plan = calls;
        self
    }

    /// A log with the same lines and the same list of calls that are to fail, none of which it has had.
    pub(crate) fn reopened(&self, alloc: Global) -> Result<Self, AllocError>
        ensures lines { IfOk result (λ log. log_lines log ≡ log_lines self.now) }
        ensures unasked { IfOk result (λ log. log_answers log ≡ []) }
        ensures count { IfOk result (λ log. log_faults log ≡ 0) }
        ensures calls { IfOk result (λ log. log_calls log ≡ 0) }
        ensures plan { IfOk result (λ log. log_plan log ≡ log_plan self.now) }
        ensures sure { ⟦<MemLog as Log>⟧.sure self.now → IfOk result (λ log. ⟦<MemLog as Log>⟧.sure log) }
    {
        Ok(MemLog {
            lines: Arc::try_clone(&self.lines)?,
            asked: 0,
            room: Box::new(alloc, Returned::Empty)?,
            faults: Faults::new(self.faults.plan.to_vec(alloc)?),
        })
    }

    /// What it answered, and the room for it.
    pub(crate) fn into_answers(self) -> (Answers, Box<Returned>)
        ensures { answers_of result.0 ≡ log_answers self }
    {
        let answers = Answers {
            asked: self.asked,
            lines: self.lines.count(),
        };
        (answers, self.room)
    }

    fn holding(alloc: Global, lines: Lines) -> Result<Self, AllocError>
        ensures lines { IfOk result (λ log. log_lines log ≡ lines_of lines) }
        ensures unasked { IfOk result (λ log. log_answers log ≡ []) }
        ensures count { IfOk result (λ log. log_faults log ≡ 0) }
        ensures calls { IfOk result (λ log. log_calls log ≡ 0) }
        ensures sure { IfOk result (λ log. ⟦<MemLog as Log>⟧.sure log) }
    {
        Ok(MemLog {
            lines: Arc::new(alloc, lines)?,
            asked: 0,
            room: Box::new(alloc, Returned::Empty)?,
            faults: Faults::new(Vec::new(alloc)),
        })
    }
}

impl Log for MemLog {
    ghost use Rattle.std.specs.Prelude.{◌≡◌, ◌↔◌, ◌<◌, ◌≤◌, ◌-◌, ◌^◌, ◌++◌, ◌∷◌, ℕ, [], true, ⊤, Some, length, take, slice_get, IfOk, IsErr, OnOk, OnErr, IsErrOf};
    ghost use Rattle.ssq_outside.specs.Faults.{Rises, StaysSure};
    ghost use Rattle.ssq_outside.specs.Logs.{Line};
    ghost use Rattle.ssq_fakes.specs.Plans.{is_named, call_after};
    ghost use Rattle.ssq_fakes.specs.Logs.{log_lines, log_answers, log_faults, log_plan, log_calls};

    ghost tells = { ⊤ };

    ghost lines = { log_lines };

    ghost available = { λ log. length (log_lines log) };

    ghost answers = { log_answers };

    ghost faults = { λ log. log.faults.count };

    ghost sure = { λ log. log.faults.plan.items ≡ [] };

    fn lines(&mut self) -> Result<u64, LogFault>
        ensures planned { is_named (log_plan self.old) (log_calls self.old) ≡ true ↔ IsErr result }
        ensures next { (log_plan self.new ≡ log_plan self.old) × (log_calls self.new ≡ call_after (log_calls self.old)) }
        ensures found { IfOk result (λ n. n ≡ length (log_lines self.old)) }
        ensures told { length (log_answers self.old) < 2 ^ 64 - 1 → IfOk result (λ n. log_answers self.new ≡ log_answers self.old ++ n ∷ []) }
        ensures untold { OnErr result (log_answers self.new ≡ log_answers self.old) }
        ensures same { log_lines self.new ≡ log_lines self.old }
        ensures counted { log_faults self.old ≤ log_faults self.new }
        ensures cause { OnErr result (Rises (log_faults self.old) (log_faults self.new)) }
        ensures never { log_plan self.old ≡ [] → StaysSure 0 (log_faults self.old) (log_faults self.new) (log_plan self.new ≡ []) }
    {
        if self.faults.fails() {
            return Err(LogFault);
        }
        self.asked = self.asked.saturating_add(1);
        Ok(self.lines.count())
    }

    fn line(&mut self, at: u64, into: &mut Vec<u8>) -> Result<(), LineError>
        ensures planned { is_named (log_plan self.old) (log_calls self.old) ≡ true ↔ IsErrOf result LineError.Fault }
        ensures next { (log_plan self.new ≡ log_plan self.old) × (log_calls self.new ≡ call_after (log_calls self.old)) }
        ensures found { OnOk result (at < length (log_lines self.new)) }
        ensures bytes { OnOk result ((line : Line) × (slice_get (log_lines self.new) at ≡ Some line) × (into.new.items ≡ take 1048577 line)) }
        ensures cap { OnOk result (length into.new.items ≤ 1048577) }
        ensures short { (n : ℕ) → IsErrOf result (LineError.Short n) → (n ≤ at) × (length (log_lines self.new) ≡ n) }
        ensures unasked { log_answers self.new ≡ log_answers self.old }
        ensures same { log_lines self.new ≡ log_lines self.old }
        ensures counted { log_faults self.old ≤ log_faults self.new }
        ensures cause { IsErrOf result LineError.Fault → Rises (log_faults self.old) (log_faults self.new) }
        ensures never { log_plan self.old ≡ [] → StaysSure 0 (log_faults self.old) (log_faults self.new) (log_plan self.new ≡ []) }
    {
        if self.faults.fails() {
            return Err(LineError::Fault);
        }
        let lines: &Lines = &self.lines;
        match lines.get(at) {
            Some(line) => refill(into, front(line, LONGEST)),
            None => Err(LineError::Short {
                found: lines.count(),
            }),
        }
    }
}

/// Adds a byte to the line that was begun, or ends that line.
fn take_byte(
    alloc: Global,
    lines: &mut Vec<Vec<u8>>,
    line: &mut Vec<u8>,
    byte: u8,
) -> Result<(), AllocError>
    ensures { OnOk result ((rest : List ℕ) → map (λ line. line.items) lines.new.items ++ lines_after line.new.items rest ≡ map (λ line. line.items) lines.old.items ++ lines_after line.old.items (byte ∷ rest)) }
{
    if byte == b'\n' {
        lines.push(mem::replace(line, Vec::new(alloc)))?;
    } else {
        line.push(byte)?;
    }
    Ok(())
}

/// At most so many of these bytes, from the front.
#[tactic(auto, using(crate::proofs::WholeLines::front_steps))]
pub(crate) fn front(bytes: &[u8], most: usize) -> &[u8]
    ensures bytes { result.now ≡ take most bytes.now }
    ensures cap { length result.now ≤ most }
{
    &bytes[..bytes.len().min(most)]
}

/// Puts the bytes into the buffer, in place of what it held.
fn refill(into: &mut Vec<u8>, bytes: &[u8]) -> Result<(), LineError>
    ensures ok { OnOk result (into.new.items ≡ bytes.now) }
    ensures err { OnErr result (result ≡ Err LineError.NoMemory) }
{
    into.clear();
    match into.extend_from_slice(bytes) {
        Ok(()) => Ok(()),
        Err(_) => Err(LineError::NoMemory),
    }
}
