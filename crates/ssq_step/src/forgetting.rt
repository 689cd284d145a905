//! Keys that a partition keeps no more.

ghost use Rattle.std.specs.Prelude.{OnOk};
ghost use Rattle.ssq_step.specs.Forgetting.{IsGone};
ghost use Rattle.ssq_step.specs.Indexing.{seen};

use crate::bytes::short;
use ssq_field::Bytes;
use ssq_version::Draft;
use std::alloc::AllocError;

/// Says that these keys are kept no more, in place of what was said of them.
pub fn forget(draft: &mut Draft, keys: &[&Bytes]) -> Result<(), AllocError>
    ensures { OnOk result (IsGone (seen keys.now) draft.old draft.new) }
{
    for &key in keys {
        draft.remove(short(key.clone()?)?)?;
    }
    Ok(())
}
