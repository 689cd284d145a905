//! Which calls on a disk and its stages are to fail.

ghost use Rattle.std.specs.Prelude.{◌≡◌, [], None};

use crate::faults::Plan;
use std::alloc::{AllocError, Global};

/// A call that is to fail.
#[derive(Clone, Copy, Debug)]
pub enum FailAt {
    /// The call on the disk with this number, from 0.
    Disk(u64),
    /// On the stage with this number, in the order in which they were begun, the call with this number; both from 0.
    Stage(u64, u64),
}

impl FailAt {
    ghost use Rattle.std.specs.Prelude.{◌≡◌, IfOk};
    ghost use Rattle.ssq_fakes.specs.Plans.{is_on_disk, on_stage};

    /// Whether it is the call on the disk with this number.
    fn is_on_disk(self, call: u64) -> bool
        ensures { result ≡ is_on_disk call self }
    {
        match self {
            FailAt::Disk(at) => at == call,
            FailAt::Stage(_, _) => false,
        }
    }

    /// Of these the calls on the stage with this number.
    pub(crate) fn on_stage(
        alloc: Global,
        calls: &[FailAt],
        stage: u64,
    ) -> Result<Vec<u64>, AllocError>
        ensures { IfOk result (λ found. found.items ≡ on_stage stage calls.now) }
    {
        let mut found = Vec::new(alloc);
        for call in calls {
            if let FailAt::Stage(of, at) = call {
                if *of == stage {
                    found.push(*at)?;
                }
            }
        }
        Ok(found)
    }
}

/// The calls on a disk and its stages that are to fail.
#[derive(Drop)]
pub struct DiskPlan {
    pub calls: Vec<FailAt>,
    /// After so many calls on the disk each one fails.
    pub stop_after: Option<u64>,
}

impl Plan for DiskPlan {
    ghost use Rattle.ssq_fakes.specs.Plans.{fails_on_disk};

    ghost is_empty = { λ plan. (plan.calls.items ≡ []) × (plan.stop_after ≡ None) };

    ghost names = { λ plan. fails_on_disk (record { named = plan.calls.items; stop_after = plan.stop_after }) };

    fn has(&self, call: u64) -> bool {
        self.is_stopped(call) || self.is_named(call)
    }
}

impl DiskPlan {
    ghost use Rattle.std.specs.List.{list_any};
    ghost use Rattle.ssq_fakes.specs.Plans.{is_stopped, is_on_disk};

    fn is_named(&self, call: u64) -> bool
        ensures { result ≡ list_any (is_on_disk call) self.now.calls.items }
    {
        self.calls.iter().any(|at| at.is_on_disk(call))
    }

    fn is_stopped(&self, call: u64) -> bool
        ensures { result ≡ is_stopped self.now.stop_after call }
    {
        match self.stop_after {
            Some(most) => most <= call,
            None => false,
        }
    }
}
