//! Vectors joined into one.

ghost use Rattle.std.specs.Prelude.{◌≡◌, IfOk};
ghost use Rattle.ssq_task.specs.Lists.{joined_vecs};

use std::alloc::{AllocError, Global};

/// What the vectors hold, one after the other. What the first holds stays where it is.
pub(crate) fn joined<T: Drop>(alloc: Global, vecs: Vec<Vec<T>>) -> Result<Vec<T>, AllocError>
    ensures { IfOk result (λ all. all.items ≡ joined_vecs vecs.items) }
{
    let mut vecs = vecs.into_iter();
    let Some(mut all) = vecs.next() else {
        return Ok(Vec::new(alloc));
    };
    for mut vec in vecs {
        all.append(&mut vec)?;
    }
    Ok(all)
}
