//! What is told of a file.

use ssq_accept::accept;
use std::alloc::{AllocGlobal, Global};
use std::mem::ManuallyDrop;
use std::process::Abort;
use std::test::Fail;

/// `accepted`, or the refusal of a file.
pub(crate) fn told(alloc: Global, file: &[u8]) -> Result<String, Fail> {
    match accept(alloc, file) {
        Ok(accepted) => {
            // It is not freed: the prover would take it apart.
            let _kept = ManuallyDrop::new(accepted);
            Ok(String::from_str(alloc, "accepted")?)
        }
        Err(refusal) => Ok(format!(in alloc; "{refusal}")?),
    }
}

pub(crate) fn check(rt: &(impl Abort + AllocGlobal), rows: &[(&str, &str)]) -> Result<(), Fail> {
    for (file, want) in rows {
        let found = told(rt.alloc(), file.as_bytes())?;
        assert_eq!(rt; found.as_str(), *want, "at {file}");
    }
    Ok(())
}
