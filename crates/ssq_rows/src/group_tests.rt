//! Runs of queries that keep state.

use crate::grouped::{CLOSED, IN_FOUR, Shown, WHOLE, shown_runs};
use crate::repeated::REPEATED;
use crate::rows::{Files, Row};
use crate::tests::{disk_of, ends_so, has, run_on};
use ssq_fakes::MemDisk;
use ssq_outside::Disk;
use ssq_run::Ended;
use std::alloc::{AllocError, Global};
use std::sync::Wait;
use std::test::Fail;
use std::thread::Threads;

#[test]
fn groups_leave_these_files(rt: HostRuntime) -> Result<(), Fail> {
    let alloc = rt.alloc();
    for row in &WHOLE {
        let disk = disk_of(alloc, row.before).expect(&rt, "memory");
        assert!(rt; ends_so(&rt, alloc, row, disk)?);
    }
    assert!(rt; ends_so(&rt, alloc, &CLOSED, MemDisk::new(alloc))?);
    Ok(())
}

#[test]
fn repeats_are_left_out(rt: HostRuntime) -> Result<(), Fail> {
    let alloc = rt.alloc();
    let disk = disk_of(alloc, REPEATED.before).expect(&rt, "memory");
    assert!(rt; shows_so(&rt, alloc, &REPEATED, disk)?);
    Ok(())
}

/// Whether the disk has these files.
pub(crate) fn has_all<D: Disk>(alloc: Global, disk: &mut D, files: Files) -> bool {
    let mut all = true;
    for file in files {
        all = all && has(alloc, disk, *file);
    }
    all
}

/// The run as a row of which not all files are told.
fn row_of(run: &Shown) -> Row {
    Row {
        words: run.words,
        query: run.query,
        before: run.before,
        parts: run.parts,
        out: run.out,
        status: 0,
        after: &[],
    }
}

/// Whether a run over the disk tells its epochs and leaves these files.
fn shows_so<R: Threads + Wait + Sync>(
    rt: &R,
    alloc: Global,
    run: &Shown,
    disk: MemDisk,
) -> Result<bool, AllocError> {
    let Ended {
        status,
        mut disk,
        inputs: _,
        out,
    } = run_on(rt, alloc, &row_of(run), disk)?;
    Ok(status == 0 && out.bytes() == run.out && has_all(alloc, &mut disk, run.files))
}

#[test]
fn groups_are_shown(rt: HostRuntime) -> Result<(), Fail> {
    let alloc = rt.alloc();
    for run in shown_runs() {
        let disk = disk_of(alloc, run.before).expect(&rt, "memory");
        assert!(rt; shows_so(&rt, alloc, run, disk)?);
    }
    Ok(())
}

/// What a run with other partitions than are kept tells.
fn told_in_four<R: Threads + Wait + Sync>(
    rt: &R,
    alloc: Global,
    disk: MemDisk,
) -> Result<bool, AllocError> {
    let row = Row {
        words: IN_FOUR,
        ..row_of(&shown_runs()[0])
    };
    let over = run_on(rt, alloc, &row, disk)?;
    Ok(over.status == 9 && over.out.bytes() == b"stopped 9 OtherPartitions 3 4\n".as_slice())
}

/// The partitions of a checkpoint stay as they are.
#[test]
fn partitions_are_kept(rt: HostRuntime) -> Result<(), Fail> {
    let alloc = rt.alloc();
    let row = row_of(&shown_runs()[0]);
    let Ended { disk, .. } = run_on(&rt, alloc, &row, MemDisk::new(alloc))?;
    assert!(rt; told_in_four(&rt, alloc, disk)?);
    Ok(())
}
