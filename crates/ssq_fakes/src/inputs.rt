//! Inputs in memory.

ghost use Rattle.std.specs.Prelude.{◌≡◌, ◌<◌, [], ⊤, Some, length, slice_get, IfOk, All};

use crate::faults::Faults;
use crate::log::{MemLog, front};
use crate::returned::Returned;
use ssq_outside::{InputError, Inputs, Log};
use std::alloc::{AllocError, Global};

/// A file by its name.
#[derive(Drop)]
struct Text {
    name: String,
    bytes: Vec<u8>,
}

/// A part of a stream.
#[derive(Drop)]
struct Part {
    stream: String,
    log: MemLog,
}

/// Files by their names, and streams' parts. A log that it hands out has the part's lines, none of which are copied,
/// and the part's list of calls that are to fail.
#[derive(Drop)]
pub struct MemInputs {
    /// The newest first.
    texts: Vec<Text>,
    /// Each stream's in their order.
    parts: Vec<Part>,
    /// What logs answered that were given back.
    returned: Returned,
    faults: Faults<Vec<u64>>,
}

impl MemInputs {
    ghost use Rattle.ssq_fakes.specs.Logs.{log_lines, log_plan};
    ghost use Rattle.ssq_fakes.specs.Inputs.{inputs_held, inputs_returned, input_faults, input_plan, input_calls, part_plan, holding_text, holding_part, planning_part, parts_of, text_in, IsSureLog};

    /// No file and no part. They never fail.
    pub fn new(alloc: Global) -> Self
        ensures held { inputs_held result ≡ record { text = λ name. []; parts = λ stream. 0; lines = λ stream number. [] } }
        ensures returned { inputs_returned result ≡ [] }
        ensures count { input_faults result ≡ 0 }
        ensures plan { input_plan result ≡ [] }
        ensures calls { input_calls result ≡ 0 }
        ensures parts { part_plan result ≡ (λ stream number. []) }
        ensures sure { ⟦<MemInputs as Inputs>⟧.sure result }
    {
        MemInputs {
            texts: Vec::new(alloc),
            parts: Vec::new(alloc),
            returned: Returned::Empty,
            faults: Faults::new(Vec::new(alloc)),
        }
    }

    /// With these bytes as the file of this name, in place of what it had. Where memory runs out the inputs are lost.
    pub fn with_text(mut self, alloc: Global, name: &str, bytes: &[u8]) -> Result<Self, AllocError>
        ensures held { IfOk result (λ inputs. inputs_held inputs ≡ holding_text name.now bytes.now (inputs_held self)) }
        ensures returned { IfOk result (λ inputs. inputs_returned inputs ≡ inputs_returned self) }
        ensures count { IfOk result (λ inputs. input_faults inputs ≡ input_faults self) }
        ensures plan { IfOk result (λ inputs. input_plan inputs ≡ input_plan self) }
        ensures calls { IfOk result (λ inputs. input_calls inputs ≡ input_calls self) }
        ensures parts { IfOk result (λ inputs. part_plan inputs ≡ part_plan self) }
        ensures sure { ⟦<MemInputs as Inputs>⟧.sure self → IfOk result (λ inputs. ⟦<MemInputs as Inputs>⟧.sure inputs) }
    {
        let text = Text {
            name: String::from_str(alloc, name)?,
            bytes: bytes.to_vec(alloc)?,
        };
        self.texts.insert(0, text)?;
        Ok(self)
    }

    /// With this log as the next part of the stream. Where memory runs out the inputs and the log are lost.
    pub fn with_part(mut self, alloc: Global, stream: &str, log: MemLog) -> Result<Self, AllocError>
        ensures held { IfOk result (λ inputs. inputs_held inputs ≡ holding_part stream.now (log_lines log) (inputs_held self)) }
        ensures returned { IfOk result (λ inputs. inputs_returned inputs ≡ inputs_returned self) }
        ensures count { IfOk result (λ inputs. input_faults inputs ≡ input_faults self) }
        ensures plan { IfOk result (λ inputs. input_plan inputs ≡ input_plan self) }
        ensures calls { IfOk result (λ inputs. input_calls inputs ≡ input_calls self) }
        ensures parts { IfOk result (λ inputs. part_plan inputs ≡ planning_part stream.now (log_plan log) (inputs_held self) (part_plan self)) }
        ensures sure { ⟦<MemInputs as Inputs>⟧.sure self → ⟦<MemLog as Log>⟧.sure log → IfOk result (λ inputs. ⟦<MemInputs as Inputs>⟧.sure inputs) }
    {
        let stream = String::from_str(alloc, stream)?;
        self.parts.push(Part { stream, log })?;
        Ok(self)
    }

    /// The same, where the calls of `text`, `parts` and `log` with these numbers, from 0, fail.
    pub fn failing(mut self, calls: Vec<u64>) -> Self
        ensures held { inputs_held result ≡ inputs_held self }
        ensures returned { inputs_returned result ≡ inputs_returned self }
        ensures count { input_faults result ≡ input_faults self }
        ensures plan { input_plan result ≡ calls.items }
        ensures calls { input_calls result ≡ input_calls self }
        ensures parts { part_plan result ≡ part_plan self }
    {
        self.faults.plan = calls;
        self
    }

    fn find_text(&self, name: &str) -> &[u8]
        ensures { result.now ≡ text_in self.now.texts.items name.now }
    {
        for text in &self.texts {
            if text.name.as_str() == name {
                return &text.bytes;
            }
        }
        &[]
    }

    fn count_parts(&self, stream: &str) -> usize
        ensures { result ≡ length (parts_of self.now.parts.items stream.now) }
    {
        self.parts
            .iter()
            .filter(|part| part.stream.as_str() == stream)
            .count()
    }

    fn find_part(&self, stream: &str, number: u32) -> &Part
        requires { number < length (parts_of self.now.parts.items stream.now) }
        ensures found { slice_get (parts_of self.now.parts.items stream.now) number ≡ Some result.now }
        ensures sure { All (λ part. IsSureLog part.log) self.now.parts.items → IsSureLog result.now.log }
    {
        let mut left = number;
        for part in &self.parts {
            if part.stream.as_str() == stream {
                if left == 0 {
                    return part;
                }
                left -= 1;
            }
        }
        unreachable!()
    }
}

impl Inputs for MemInputs {
    ghost use Rattle.std.specs.Prelude.{◌≡◌, ◌↔◌, ◌<◌, ◌≤◌, ◌+◌, ◌-◌, ◌^◌, ◌∷◌, ℕ, List, [], true, ⊤, length, take, min, All, IfOk, IsErrOf};
    ghost use Rattle.ssq_outside.specs.Faults.{Rises, StaysSure};
    ghost use Rattle.ssq_fakes.specs.Plans.{is_named, call_after};
    ghost use Rattle.ssq_fakes.specs.Logs.{log_lines, log_answers, log_faults, log_plan, log_calls};
    ghost use Rattle.ssq_fakes.specs.Inputs.{inputs_held, inputs_returned, input_faults, input_plan, input_calls, part_plan, IsSureInputs, IsSureLog};

    type Log = MemLog;

    ghost tells = { ⊤ };

    ghost held = { inputs_held };

    ghost available = { λ inputs stream part. length ((inputs_held inputs).lines stream part) };

    ghost returned = { inputs_returned };

    ghost faults = { input_faults };

    ghost sure = { IsSureInputs };

    ghost logs_tell = { λ tells. tells };

    fn text(&mut self, alloc: Global, name: &str, max: usize) -> Result<Vec<u8>, InputError>
        ensures planned { is_named (input_plan self.old) (input_calls self.old) ≡ true ↔ IsErrOf result InputError.Fault }
        ensures next { (input_plan self.new ≡ input_plan self.old) × (input_calls self.new ≡ call_after (input_calls self.old)) }
        ensures found { IfOk result (λ bytes. bytes.items ≡ take max ((inputs_held self.old).text name.now)) }
        ensures cap { IfOk result (λ bytes. length bytes.items ≤ max) }
        ensures parts { part_plan self.new ≡ part_plan self.old }
        ensures same { inputs_held self.new ≡ inputs_held self.old }
        ensures unreturned { inputs_returned self.new ≡ inputs_returned self.old }
        ensures grown { (stream : List ℕ) (part : ℕ) → length ((inputs_held self.old).lines stream part) ≤ length ((inputs_held self.new).lines stream part) }
        ensures counted { input_faults self.old ≤ input_faults self.new }
        ensures cause { IsErrOf result InputError.Fault → Rises (input_faults self.old) (input_faults self.new) }
        ensures never { IsSureInputs self.old → StaysSure 0 (input_faults self.old) (input_faults self.new) (IsSureInputs self.new) }
    {
        if self.faults.fails() {
            return Err(InputError::Fault);
        }
        match front(self.find_text(name), max).to_vec(alloc) {
            Ok(bytes) => Ok(bytes),
            Err(_) => Err(InputError::NoMemory),
        }
    }

    fn parts(&mut self, _alloc: Global, stream: &str) -> Result<u32, InputError>
        ensures planned { is_named (input_plan self.old) (input_calls self.old) ≡ true ↔ IsErrOf result InputError.Fault }
        ensures next { (input_plan self.new ≡ input_plan self.old) × (input_calls self.new ≡ call_after (input_calls self.old)) }
        ensures found { IfOk result (λ n. n ≡ min ((inputs_held self.old).parts stream.now) 65) }
        ensures cap { IfOk result (λ n. n ≤ 65) }
        ensures parts { part_plan self.new ≡ part_plan self.old }
        ensures same { inputs_held self.new ≡ inputs_held self.old }
        ensures unreturned { inputs_returned self.new ≡ inputs_returned self.old }
        ensures grown { (stream : List ℕ) (part : ℕ) → length ((inputs_held self.old).lines stream part) ≤ length ((inputs_held self.new).lines stream part) }
        ensures counted { input_faults self.old ≤ input_faults self.new }
        ensures cause { IsErrOf result InputError.Fault → Rises (input_faults self.old) (input_faults self.new) }
        ensures never { IsSureInputs self.old → StaysSure 0 (input_faults self.old) (input_faults self.new) (IsSureInputs self.new) }
    {
        if self.faults.fails() {
            return Err(InputError::Fault);
        }
        Ok(self.count_parts(stream).min(65) as u32)
    }

    fn log(&mut self, alloc: Global, stream: &str, part: u32) -> Result<MemLog, InputError>
        requires { part < (inputs_held self.old).parts stream.now }
        ensures planned { is_named (input_plan self.old) (input_calls self.old) ≡ true ↔ IsErrOf result InputError.Fault }
        ensures next { (input_plan self.new ≡ input_plan self.old) × (input_calls self.new ≡ call_after (input_calls self.old)) }
        ensures lines { IfOk result (λ log. log_lines log ≡ (inputs_held self.old).lines stream.now part) }
        ensures plan { IfOk result (λ log. log_plan log ≡ part_plan self.old stream.now part) }
        ensures calls { IfOk result (λ log. log_calls log ≡ 0) }
        ensures unasked { IfOk result (λ log. log_answers log ≡ []) }
        ensures fresh { IfOk result (λ log. log_faults log ≡ 0) }
        ensures never_log { IsSureInputs self.old → IfOk result (λ log. IsSureLog log) }
        ensures parts { part_plan self.new ≡ part_plan self.old }
        ensures same { inputs_held self.new ≡ inputs_held self.old }
        ensures unreturned { inputs_returned self.new ≡ inputs_returned self.old }
        ensures grown { (stream : List ℕ) (part : ℕ) → length ((inputs_held self.old).lines stream part) ≤ length ((inputs_held self.new).lines stream part) }
        ensures counted { input_faults self.old ≤ input_faults self.new }
        ensures cause { IsErrOf result InputError.Fault → Rises (input_faults self.old) (input_faults self.new) }
        ensures never { IsSureInputs self.old → StaysSure 0 (input_faults self.old) (input_faults self.new) (IsSureInputs self.new) }
    {
        if self.faults.fails() {
            return Err(InputError::Fault);
        }
        match self.find_part(stream, part).log.reopened(alloc) {
            Ok(log) => Ok(log),
            Err(_) => Err(InputError::NoMemory),
        }
    }

    fn give_back(&mut self, log: MemLog)
        ensures added { input_faults self.new ≡ min (input_faults self.old + log_faults log) (2 ^ 64 - 1) }
        ensures plan { input_plan self.new ≡ input_plan self.old }
        ensures calls { input_calls self.new ≡ input_calls self.old }
        ensures parts { part_plan self.new ≡ part_plan self.old }
        ensures same { inputs_held self.new ≡ inputs_held self.old }
        ensures returned { inputs_returned self.new ≡ log_answers log ∷ inputs_returned self.old }
        ensures grown { (stream : List ℕ) (part : ℕ) → length ((inputs_held self.old).lines stream part) ≤ length ((inputs_held self.new).lines stream part) }
        ensures never { IsSureInputs self.old → log_faults log ≡ 0 → StaysSure 0 (input_faults self.old) (input_faults self.new) (IsSureInputs self.new) }
    {
        self.faults.count = self.faults.count.saturating_add(log.faults.count);
        let (answers, room) = log.into_answers();
        self.returned.push(answers, room);
    }
}
