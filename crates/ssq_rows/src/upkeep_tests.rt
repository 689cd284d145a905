//! What long runs leave of the state's files.

use crate::grouped::SUMMED;
use crate::rows::{BY_ONE, Row};
use crate::tests::{Over, disk_after, has, run};
use ssq_fakes::{MemDisk, MemInputs, MemLog, MemOut};
use ssq_outside::{Disk, DiskError, Name, Stage};
use std::alloc::{AllocError, Global};
use std::sync::Wait;
use std::test::Fail;
use std::thread::Threads;

const LINE: &[u8] = b"{\"k\":\"a\",\"v\":1}";

const SHOW: &[&str] = &["ssq", "show", "q.sql"];

/// A run over so many lines, one an epoch, which of the state's files it leaves, and its table.
struct Long {
    lines: u64,
    /// The first version whose delta is left, and the one after the last.
    deltas: (u32, u32),
    snapshots: &'static [u32],
    /// The newest of them. After its mark it has the partition, the version, the number of entries, and of the one entry the length of the key,
    /// the key, the length of the value and the value: how many numbers there are, and their sum.
    newest: (Name, &'static [u8]),
    table: &'static [u8],
}

static RUNS: [Long; 2] = [
    Long {
        lines: 31,
        deltas: (10, 31),
        snapshots: &[9, 19, 29],
        newest: (
            Name::Snapshot(0, 29),
            b"SSQSNAP1\0\0\0\0\0\0\0\x1d\0\0\0\0\0\0\0\x01\0\0\0\x06\x04\0\0\0\x01a\0\0\0\x18\0\0\0\0\0\0\0\x1e\0\0\0\0\0\0\0\0\0\0\0\0\0\0\0\x1e",
        ),
        table: b"{\"k\":\"a\",\"t\":31}\n",
    },
    Long {
        lines: 60,
        deltas: (40, 60),
        snapshots: &[39, 49, 59],
        newest: (
            Name::Snapshot(0, 59),
            b"SSQSNAP1\0\0\0\0\0\0\0\x3b\0\0\0\0\0\0\0\x01\0\0\0\x06\x04\0\0\0\x01a\0\0\0\x18\0\0\0\0\0\0\0\x3c\0\0\0\0\0\0\0\0\0\0\0\0\0\0\0\x3c",
        ),
        table: b"{\"k\":\"a\",\"t\":60}\n",
    },
];

/// Runs words over a disk and a log of so many lines.
fn over<R: Threads + Wait + Sync>(
    rt: &R,
    alloc: Global,
    words: &'static [&'static str],
    lines: u64,
    disk: MemDisk,
) -> Result<Over, AllocError> {
    let row = Row {
        words,
        query: SUMMED,
        before: &[],
        parts: &[],
        out: b"",
        status: 0,
        after: &[],
    };
    let inputs = MemInputs::new(alloc)
        .with_text(alloc, "q.sql", SUMMED)?
        .with_part(alloc, "s", MemLog::repeat(alloc, LINE, lines)?)?;
    run(rt, alloc, &row, disk, inputs, MemOut::new(alloc))
}

/// Whether a file may be left: one of the state's that has to be, or any other.
fn may_stay(name: Name, run: &Long) -> bool {
    match name {
        Name::Delta(0, version) => run.deltas.0 <= version && version < run.deltas.1,
        Name::Snapshot(0, version) => run.snapshots.contains(&version),
        Name::Delta(..) | Name::Snapshot(..) => false,
        _ => true,
    }
}

fn is_among(names: &[Name], name: Name) -> bool {
    names.iter().any(|other| *other == name)
}

/// Whether the disk has these of the state's files, and no other.
fn keeps<D: Disk>(alloc: Global, disk: &mut D, run: &Long) -> bool {
    let Ok(listed) = disk.names(alloc) else {
        return false;
    };
    let names = listed.as_slice();
    for version in run.deltas.0..run.deltas.1 {
        if !is_among(names, Name::Delta(0, version)) {
            return false;
        }
    }
    for version in run.snapshots {
        if !is_among(names, Name::Snapshot(0, *version)) {
            return false;
        }
    }
    names.iter().all(|name| may_stay(*name, run))
}

/// The state's files of 31 and of 60 epochs, also after a further run, which has nothing to do, and what is shown.
#[test]
fn old_files_go(rt: HostRuntime) -> Result<(), Fail> {
    let alloc = rt.alloc();
    for long in &RUNS {
        let mut disk = MemDisk::new(alloc);
        for _ in 0..2 {
            let run = over(&rt, alloc, BY_ONE, long.lines, disk)?;
            assert_eq!(rt; run.status, 0);
            disk = run.disk;
            assert!(rt; keeps(alloc, &mut disk, long));
            assert!(rt; has(alloc, &mut disk, long.newest));
        }
        let shown = over(&rt, alloc, SHOW, long.lines, disk)?;
        assert_eq!(rt; shown.out.bytes(), long.table);
    }
    Ok(())
}

/// Takes the last byte of a file away.
fn cut(alloc: Global, disk: &mut MemDisk, name: Name) -> Result<(), DiskError> {
    let Some(bytes) = disk.read(alloc, name)? else {
        return Err(DiskError::Fault);
    };
    let Some((_, front)) = bytes.as_slice().split_last() else {
        return Err(DiskError::Fault);
    };
    let mut stage = disk.stage(alloc)?;
    stage.write(front)?;
    let Ok(sealed) = stage.sync() else {
        return Err(DiskError::Fault);
    };
    disk.publish(sealed, name)?;
    disk.sync_names()?;
    Ok(())
}

/// A snapshot that the opening reads, so that the disk stays as it is: its clock counts whatever changes it.
#[test]
fn a_damaged_snapshot_is_named(rt: HostRuntime) -> Result<(), Fail> {
    let alloc = rt.alloc();
    let mut disk = over(&rt, alloc, BY_ONE, 31, MemDisk::new(alloc))?.disk;
    cut(alloc, &mut disk, Name::Snapshot(0, 29)).expect(&rt, "memory");
    let before = disk.clock();
    let run = over(&rt, alloc, BY_ONE, 31, disk)?;
    let told = b"stopped 9 Damaged state/0/29.snapshot\n";
    let disk = disk_after(run, 9, told).expect(&rt, "its name");
    assert_eq!(rt; disk.clock(), before);
    Ok(())
}

/// A delta that is read for a snapshot alone: where that is gone it is due again, and is made of the deltas up to it.
#[test]
fn a_damaged_delta_is_named(rt: HostRuntime) -> Result<(), Fail> {
    let alloc = rt.alloc();
    let mut disk = over(&rt, alloc, BY_ONE, 25, MemDisk::new(alloc))?.disk;
    cut(alloc, &mut disk, Name::Delta(0, 3)).expect(&rt, "memory");
    disk.remove(Name::Snapshot(0, 9)).expect(&rt, "a name");
    let run = over(&rt, alloc, BY_ONE, 25, disk)?;
    assert!(rt; disk_after(run, 9, b"stopped 9 Damaged state/0/3.delta\n").is_some());
    Ok(())
}
