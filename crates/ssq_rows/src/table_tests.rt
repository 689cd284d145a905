//! Tables that are shown, or refused.

use crate::rows::{ORDERED, Row};
use crate::tables::{BAD, TABLES};
use crate::tests::{disk_of, ends_so, run_on};
use ssq_fakes::MemDisk;
use ssq_run::Ended;
use std::alloc::{AllocError, Global};
use std::sync::Wait;
use std::test::Fail;
use std::thread::Threads;

/// Keys by how often they stand, in three epochs of two lines at most.
static COUNTED: Row = Row {
    words: &["ssq", "run", "q.sql", "--max-lines", "2"],
    query: ORDERED,
    before: &[],
    parts: &[b"{\"k\":\"b\"}\n{}\n{\"k\":\"a\"}\n{\"k\":null}\n{\"k\":\"b\"}\n"],
    out: b"",
    status: 0,
    after: &[],
};

#[test]
fn tables_are_shown(rt: HostRuntime) -> Result<(), Fail> {
    let alloc = rt.alloc();
    for row in &TABLES {
        let disk = disk_of(alloc, row.before).expect(&rt, "memory");
        assert!(rt; ends_so(&rt, alloc, row, disk)?);
    }
    Ok(())
}

#[test]
fn bad_sink_files_are_named(rt: HostRuntime) -> Result<(), Fail> {
    let alloc = rt.alloc();
    for row in &BAD {
        let disk = disk_of(alloc, row.before).expect(&rt, "memory");
        assert!(rt; ends_so(&rt, alloc, row, disk)?);
    }
    Ok(())
}

/// What is shown of a checkpoint.
fn shows<R: Threads + Wait + Sync>(
    rt: &R,
    alloc: Global,
    run: &Row,
    disk: MemDisk,
    table: &[u8],
) -> Result<bool, AllocError> {
    let row = Row {
        words: &["ssq", "show", "q.sql"],
        ..*run
    };
    let over = run_on(rt, alloc, &row, disk)?;
    Ok(over.status == 0 && over.out.bytes() == table)
}

/// In Complete the last epoch's rows, by ORDER BY: those of five lines, and no longer those of two.
#[test]
fn the_last_epoch_is_shown(rt: HostRuntime) -> Result<(), Fail> {
    let alloc = rt.alloc();
    let Ended { disk, .. } = run_on(&rt, alloc, &COUNTED, MemDisk::new(alloc))?;
    let table = b"{\"k\":null,\"n\":2}\n{\"k\":\"b\",\"n\":2}\n{\"k\":\"a\",\"n\":1}\n".as_slice();
    assert!(rt; shows(&rt, alloc, &COUNTED, disk, table)?);
    Ok(())
}
