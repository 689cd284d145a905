//! An output in memory.

ghost use Rattle.std.specs.Prelude.{◌≡◌, [], ⊤};

use crate::faults::Faults;
use ssq_outside::{OutError, Output};
use std::alloc::Global;

/// Keeps what was put.
#[derive(Drop)]
pub struct MemOut {
    bytes: Vec<u8>,
    faults: Faults<Vec<u64>>,
}

impl MemOut {
    ghost use Rattle.ssq_fakes.specs.Outputs.{put_bytes, out_faults, out_plan, out_calls};

    /// Nothing yet. It never fails.
    pub fn new(alloc: Global) -> Self
        ensures bytes { put_bytes result ≡ [] }
        ensures count { out_faults result ≡ 0 }
        ensures plan { out_plan result ≡ [] }
        ensures calls { out_calls result ≡ 0 }
        ensures sure { ⟦<MemOut as Output>⟧.sure result }
    {
        MemOut {
            bytes: Vec::new(alloc),
            faults: Faults::new(Vec::new(alloc)),
        }
    }

    /// The same, where the calls of `put` with these numbers, from 0, fail.
    pub fn failing(mut self, calls: Vec<u64>) -> Self
        ensures bytes { put_bytes result ≡ put_bytes self }
        ensures count { out_faults result ≡ out_faults self }
        ensures plan { out_plan result ≡ calls.items }
        ensures calls { out_calls result ≡ out_calls self }
    {
        self.faults.plan = calls;
        self
    }

    /// The bytes that were put.
    pub fn bytes(&self) -> &[u8]
        ensures { result.now ≡ put_bytes self.now }
    {
        &self.bytes
    }
}

impl Output for MemOut {
    ghost use Rattle.std.specs.Prelude.{◌≡◌, ◌↔◌, ◌≤◌, ◌++◌, ℕ, [], true, ⊤, take, OnOk, OnErr, IsErrOf};
    ghost use Rattle.ssq_outside.specs.Faults.{Rises, StaysSure};
    ghost use Rattle.ssq_fakes.specs.Plans.{is_named, call_after};
    ghost use Rattle.ssq_fakes.specs.Outputs.{put_bytes, out_faults, out_plan, out_calls};

    ghost tells = { ⊤ };

    ghost content = { λ out. out.bytes.items };

    ghost faults = { λ out. out.faults.count };

    ghost sure = { λ out. out.faults.plan.items ≡ [] };

    fn put(&mut self, bytes: &[u8]) -> Result<(), OutError>
        ensures planned { is_named (out_plan self.old) (out_calls self.old) ≡ true ↔ IsErrOf result OutError.Fault }
        ensures next { (out_plan self.new ≡ out_plan self.old) × (out_calls self.new ≡ call_after (out_calls self.old)) }
        ensures ok { OnOk result (put_bytes self.new ≡ put_bytes self.old ++ bytes.now) }
        ensures err { OnErr result (put_bytes self.new ≡ put_bytes self.old) }
        ensures counted { out_faults self.old ≤ out_faults self.new }
        ensures cause { IsErrOf result OutError.Fault → Rises (out_faults self.old) (out_faults self.new) }
        ensures never { out_plan self.old ≡ [] → StaysSure 0 (out_faults self.old) (out_faults self.new) (out_plan self.new ≡ []) }
    {
        if self.faults.fails() {
            return Err(OutError::Fault);
        }
        match self.bytes.extend_from_slice(bytes) {
            Ok(()) => Ok(()),
            Err(_) => Err(OutError::NoMemory),
        }
    }
}
