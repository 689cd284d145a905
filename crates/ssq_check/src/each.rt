//! The first of what is wrong with the elements of a list.

ghost use Rattle.std.specs.Prelude.{IfOk};
ghost use Rattle.ssq_check.specs.Fault.{FirstOf};
ghost use Rattle.ssq_check.specs.Lists.{Each};

use crate::fault::{BindFault, sooner};
use std::alloc::{AllocError, Global};

/// An element of a list that may break rules, with `N` for the names that it may use.
pub(crate) trait Checked<N> {
    ghost use Rattle.std.specs.Prelude.{IfOk};
    ghost use Rattle.ssq_check.specs.Fault.{Faults, FirstOf};

    ghost faults: { N → Self → Faults };

    /// The first of its faults.
    fn first_fault(&self, alloc: Global, names: &N) -> Result<Option<BindFault>, AllocError>
        ensures { IfOk result (FirstOf (faults names.now self.now)) };
}

/// The first fault of the elements of a list.
pub(crate) fn first_in<N, T: Checked<N>>(
    alloc: Global,
    names: &N,
    items: &[T],
) -> Result<Option<BindFault>, AllocError>
    ensures { IfOk result (FirstOf (Each (T.faults names.now) items.now)) }
{
    let mut first = None;
    for item in items {
        let own = item.first_fault(alloc, names)?;
        first = sooner(first, own);
    }
    Ok(first)
}
