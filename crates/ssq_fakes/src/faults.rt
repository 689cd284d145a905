//! Which calls of an object fail, and how often it did.

ghost use Rattle.std.specs.Prelude.{◌≡◌, ◌≤◌, ℕ, Bool, [], false};
ghost use Rattle.std.specs.Bool.{OnTrue, OnFalse};
ghost use Rattle.ssq_outside.specs.Faults.{Rises};
ghost use Rattle.ssq_fakes.specs.Plans.{is_named, call_after};

/// The calls of an object that are to fail, by their numbers from 0.
pub trait Plan {
    /// No call is to fail.
    ghost is_empty: { Self → Type 0 };

    /// Whether the call with this number is to fail.
    ghost names: { Self → ℕ → Bool };

    /// Whether this call is to fail.
    fn has(&self, call: u64) -> bool
        ensures named { result ≡ names self.now call }
        ensures empty { is_empty self.now → result ≡ false };
}

impl Plan for Vec<u64> {
    ghost is_empty = { λ calls. calls.items ≡ [] };

    ghost names = { λ calls. is_named calls.items };

    fn has(&self, call: u64) -> bool {
        self.contains(&call)
    }
}

/// The calls that an object has had, and how often it failed. Both numbers stop at the end of their 64 bits.
#[derive(Drop)]
pub struct Faults<P> {
    /// Which calls are to fail.
    pub plan: P,
    pub calls: u64,
    pub count: u64,
}

impl<P: Plan> Faults<P> {
    /// No call yet.
    pub fn new(plan: P) -> Self
        ensures plan { result.plan ≡ plan }
        ensures calls { result.calls ≡ 0 }
        ensures count { result.count ≡ 0 }
    {
        Faults {
            plan,
            calls: 0,
            count: 0,
        }
    }

    /// Counts a call, and the fault where it is to fail.
    pub fn fails(&mut self) -> bool
        ensures named { result ≡ P.names self.old.plan self.old.calls }
        ensures plan { self.new.plan ≡ self.old.plan }
        ensures calls { self.new.calls ≡ call_after self.old.calls }
        ensures counted { self.old.count ≤ self.new.count }
        ensures rises { OnTrue result (Rises self.old.count self.new.count) }
        ensures same { OnFalse result (self.new.count ≡ self.old.count) }
        ensures never { P.is_empty self.old.plan → result ≡ false }
    {
        let fails = self.plan.has(self.calls);
        self.calls = self.calls.saturating_add(1);
        if fails {
            self.raise();
        }
        fails
    }

    /// Counts a fault.
    pub fn raise(&mut self)
        ensures plan { self.new.plan ≡ self.old.plan }
        ensures calls { self.new.calls ≡ self.old.calls }
        ensures rises { Rises self.old.count self.new.count }
        ensures counted { self.old.count ≤ self.new.count }
    {
        self.count = self.count.saturating_add(1);
    }
}
