//! What is told of a file. Trees and bound queries are not freed: the prover would take them apart at each exit.

use ssq_ast::Query;
use ssq_bind::{bind, explain};
use ssq_modes::check;
use ssq_parse::parse;
use ssq_shape::Bound;
use std::alloc::{AllocGlobal, Global};
use std::mem::ManuallyDrop;
use std::process::Abort;
use std::test::Fail;

/// What is told of a bound query that may run in its mode, or the refusal.
fn told_bound(alloc: Global, bound: &Bound) -> Result<String, Fail> {
    match check(bound) {
        Ok(()) => Ok(explain(alloc, bound)?),
        Err(fault) => Ok(format!(in alloc; "{fault}")?),
    }
}

fn told_query(alloc: Global, query: &Query) -> Result<String, Fail> {
    match bind(alloc, query) {
        Ok(bound) => told_bound(alloc, &ManuallyDrop::new(bound)),
        Err(refusal) => Ok(format!(in alloc; "{refusal}")?),
    }
}

fn told(alloc: Global, file: &[u8]) -> Result<String, Fail> {
    match parse(alloc, file) {
        Ok(query) => told_query(alloc, &ManuallyDrop::new(query)),
        Err(fault) => Ok(format!(in alloc; "{fault}")?),
    }
}

pub(crate) fn are_told(rt: &(impl Abort + AllocGlobal), rows: &[(&str, &str)]) -> Result<(), Fail> {
    for (file, want) in rows {
        let found = told(rt.alloc(), file.as_bytes())?;
        assert_eq!(rt; found.as_str(), *want, "at {file}");
    }
    Ok(())
}
