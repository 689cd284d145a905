//! Runs of which one call fails, each in turn, with a crash after it.

use crate::grouped::CLOSED;
use crate::rows::{Row, worked_runs};
use crate::tests::{CALLS, holds, run_on};
use ssq_fakes::{FailAt, MemDisk};
use ssq_run::Ended;
use std::alloc::{AllocError, Global};
use std::sync::Wait;
use std::test::Fail;
use std::thread::Threads;

/// How many calls on the disk the run makes whose window is closed by an epoch without lines: five to open it, and eleven for each of three epochs,
/// of which a delta takes two.
const CLOSED_CALLS: u64 = 38;

/// How many files it writes aside: the record of the job, and of each epoch the rows, the commit, the delta and the plan.
const ASIDE: u64 = 13;

/// How many calls write and seal a file aside: a delta is written in two pieces, any other in one.
fn calls_aside(file: u64) -> u64 {
    if file % 4 == 3 { 3 } else { 2 }
}

/// What a crash leaves: of each file that was not settled the oldest, or the newest.
static CRASHES: [&[u64]; 2] = [&[], &[9, 9, 9, 9]];

/// Whether a run of which a call fails is stopped, and the next one, after a crash, comes to the same files.
fn fails_and_goes_on<R: Threads + Wait + Sync>(
    rt: &R,
    alloc: Global,
    row: &Row,
    at: FailAt,
    image: &[u64],
) -> Result<bool, AllocError> {
    let disk = MemDisk::new(alloc).failing(vec![in alloc; at]?);
    let Ended {
        status: failed,
        disk,
        ..
    } = run_on(rt, alloc, row, disk)?;
    let crashed = disk.crash_at(alloc, u64::MAX, image)?;
    let Ended {
        status,
        mut disk,
        ..
    } = run_on(rt, alloc, row, crashed)?;
    Ok(failed == 7 && status == 0 && holds(alloc, &mut disk, row.after))
}

/// Of the first row a call on the disk fails, each in turn, and a crash follows that leaves the oldest or the newest of each file: the next run
/// comes to the same files.
#[test]
fn a_fault_and_a_crash_lose_nothing(rt: HostRuntime) -> Result<(), Fail> {
    let alloc = rt.alloc();
    for call in 0..CALLS {
        for image in &CRASHES {
            assert!(rt;
                fails_and_goes_on(&rt, alloc, &worked_runs()[0], FailAt::Disk(call), image)?,
                "at call {call}"
            );
        }
    }
    Ok(())
}

/// The same of a run with groups, whose files of the state are among them.
#[test]
fn a_fault_and_a_crash_lose_no_group(rt: HostRuntime) -> Result<(), Fail> {
    let alloc = rt.alloc();
    for call in 0..CLOSED_CALLS {
        for image in &CRASHES {
            assert!(rt;
                fails_and_goes_on(&rt, alloc, &CLOSED, FailAt::Disk(call), image)?,
                "at call {call}"
            );
        }
    }
    Ok(())
}

/// The same where a call on a file aside fails, as it is written or sealed.
#[test]
fn a_fault_aside_loses_no_group(rt: HostRuntime) -> Result<(), Fail> {
    let alloc = rt.alloc();
    for file in 0..ASIDE {
        for call in 0..calls_aside(file) {
            let at = FailAt::Stage(file, call);
            assert!(rt;
                fails_and_goes_on(&rt, alloc, &CLOSED, at, CRASHES[0])?,
                "at call {call} of file {file}"
            );
        }
    }
    Ok(())
}
