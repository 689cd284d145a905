//! Queries with their names bound.

use ssq_accept::accept;
use ssq_shape::Bound;
use std::alloc::Global;
use std::mem::ManuallyDrop;
use std::test::Fail;

/// The query that a file is, with its names bound. It is not freed: the prover would take it apart at each exit of a test.
pub(crate) fn bound_of(alloc: Global, file: &[u8]) -> Result<ManuallyDrop<Bound>, Fail> {
    match accept(alloc, file) {
        Ok(accepted) => Ok(ManuallyDrop::new(accepted.into_bound())),
        Err(_refusal) => Err(Fail::from("the file is refused")),
    }
}
