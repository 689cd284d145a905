//! Runs of queries that join.

use crate::group_tests::has_all;
use crate::grouped::IN_THREE;
use crate::joined::{IN_ANY, Joined, joined_runs};
use crate::rows::{BY_ONE, Files, Row};
use crate::tests::run;
use ssq_fakes::{MemDisk, MemInputs, MemLog, MemOut};
use ssq_run::Ended;
use std::alloc::{AllocError, Global};
use std::sync::Wait;
use std::test::Fail;
use std::thread::Threads;

const IN_SIXTY_FOUR: &[&str] = &[
    "ssq",
    "run",
    "q.sql",
    "--max-lines",
    "1",
    "--partitions",
    "64",
];

/// One line of each log an epoch, with these numbers of partitions: 1, 3 and 64.
static PARTITIONS: [&[&str]; 3] = [BY_ONE, IN_THREE, IN_SIXTY_FOUR];

/// The query's file, and the two logs.
fn inputs_of(alloc: Global, joined: &Joined) -> Result<MemInputs, AllocError> {
    MemInputs::new(alloc)
        .with_text(alloc, "q.sql", joined.query)?
        .with_part(alloc, "l", MemLog::torn(alloc, joined.left)?)?
        .with_part(alloc, "r", MemLog::torn(alloc, joined.right)?)
}

/// Whether a run by these words over an empty disk tells its epochs and leaves these files.
fn joins_so<R: Threads + Wait + Sync>(
    rt: &R,
    alloc: Global,
    words: &'static [&'static str],
    joined: &Joined,
    files: Files,
) -> Result<bool, AllocError> {
    let row = Row {
        words,
        query: joined.query,
        before: &[],
        parts: &[],
        out: joined.out,
        status: 0,
        after: &[],
    };
    let inputs = inputs_of(alloc, joined)?;
    let Ended {
        status,
        mut disk,
        inputs: _,
        out,
    } = run(
        rt,
        alloc,
        &row,
        MemDisk::new(alloc),
        inputs,
        MemOut::new(alloc),
    )?;
    Ok(status == 0 && out.bytes() == joined.out && has_all(alloc, &mut disk, files))
}

#[test]
fn joined_rows_are_shown(rt: HostRuntime) -> Result<(), Fail> {
    let alloc = rt.alloc();
    for joined in joined_runs() {
        assert!(rt; joins_so(&rt, alloc, BY_ONE, joined, joined.files)?);
    }
    Ok(())
}

/// Partitions change no plan, no commit and no row.
#[test]
fn partitions_join_alike(rt: HostRuntime) -> Result<(), Fail> {
    let alloc = rt.alloc();
    for words in &PARTITIONS {
        assert!(rt; joins_so(&rt, alloc, *words, &joined_runs()[0], IN_ANY)?);
    }
    Ok(())
}
