//! The indexes with which the first round begins.

ghost use Rattle.std.specs.Prelude.{take, IfOk, OnOk};
ghost use Rattle.ssq_shape.specs.Windows.{HasWindows};
ghost use Rattle.ssq_drive.specs.Rounds.{HaveIndexes};

use ssq_shape::Bound;
use ssq_step::Closing;
use ssq_store::Store;
use std::alloc::{AllocError, Global};

/// The index of each store, in order, made by a walk over what the store keeps. The query can have its windows.
pub(crate) fn closings_of(
    alloc: Global,
    bound: &Bound,
    stores: &[Store],
) -> Result<Vec<Closing>, AllocError>
    requires { HasWindows bound.now }
    ensures { IfOk result (λ closings. HaveIndexes bound.now stores.now closings.items) }
{
    let mut closings = Vec::with_capacity(alloc, stores.len())?;
    for store in stores {
        let closing = Closing::of(alloc, bound, &store.state)?;
        closings.push(closing)?;
    }
    Ok(closings)
}
