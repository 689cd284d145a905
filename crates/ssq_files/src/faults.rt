//! Counts of faults.

ghost use Rattle.std.specs.Prelude.{◌≤◌};
ghost use Rattle.ssq_outside.specs.Faults.{Rises};

/// Raises a count by one, to the last value of its 64 bits at most.
pub(crate) fn raise(count: &mut u64)
    ensures rises { Rises count.old count.new }
    ensures counted { count.old ≤ count.new }
{
    *count = count.saturating_add(1);
}
