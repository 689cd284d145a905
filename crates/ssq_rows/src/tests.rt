//! Runs of the rows, and of some of them with faults and crashes.

use crate::rows::{
    BY_TWO, COMMIT_0, DONE, FAULT, FILTER, Files, HALF, META, OUT_0, OUT_1, PLAN_0, PLAN_1,
    REFUSED, RUN, Row, THREE, TOLD, worked_runs,
};
use ssq_fakes::{FailAt, MemDisk, MemInputs, MemLog, MemOut, OpenGate};
use ssq_files::{FolderDisk, FolderInputs};
use ssq_outside::{Disk, DiskError, Name, Stage};
use ssq_run::{Ended, stream_main};
use std::alloc::{AllocError, Global};
use std::sync::Wait;
use std::test::Fail;
use std::thread::Threads;
use std::{env, fs, process};

/// What a crash left of a name that changed, by the number of a content it had.
static IMAGES: [&[u64]; 2] = [&[0], &[1]];

/// How many calls on the disk the first row makes: five to open it (it syncs and lists names, and stages, publishes and syncs the job's
/// record), and nine for each of two epochs (it stages three files, and publishes and syncs the plan, the rows and the commit).
pub(crate) const CALLS: u64 = 23;

/// Of these, the sync after the first epoch's commit.
const COMMIT_SYNC: FailAt = FailAt::Disk(13);

/// And the sync after the second epoch's rows.
const ROWS_SYNC: FailAt = FailAt::Disk(20);

pub(crate) type Over = Ended<MemDisk, MemInputs, MemOut>;

fn words_of(alloc: Global, words: &[&str]) -> Result<Vec<String>, AllocError> {
    let mut all = Vec::new(alloc);
    for word in words {
        all.push(String::from_str(alloc, word)?)?;
    }
    Ok(all)
}

/// A disk on which these files are settled.
pub(crate) fn disk_of(alloc: Global, files: Files) -> Result<MemDisk, DiskError> {
    let mut disk = MemDisk::new(alloc);
    for (name, bytes) in files {
        let mut stage = disk.stage(alloc)?;
        stage.write(bytes)?;
        let Ok(sealed) = stage.sync() else {
            return Err(DiskError::Fault);
        };
        disk.publish(sealed, *name)?;
    }
    disk.sync_names()?;
    Ok(disk)
}

/// The query's file, and a log for each part.
fn inputs_of(alloc: Global, query: &[u8], parts: &[&[u8]]) -> Result<MemInputs, AllocError> {
    let mut inputs = MemInputs::new(alloc).with_text(alloc, "q.sql", query)?;
    for lines in parts {
        inputs = inputs.with_part(alloc, "s", MemLog::torn(alloc, lines)?)?;
    }
    Ok(inputs)
}

/// Runs the words of a row.
pub(crate) fn run<R: Threads + Wait + Sync>(
    rt: &R,
    alloc: Global,
    row: &Row,
    disk: MemDisk,
    inputs: MemInputs,
    out: MemOut,
) -> Result<Over, AllocError> {
    let words = words_of(alloc, row.words)?;
    Ok(stream_main(rt, alloc, words.as_slice(), disk, inputs, out, &OpenGate))
}

/// Runs a row over a disk, with logs and an output that never fail.
pub(crate) fn run_on<R: Threads + Wait + Sync>(
    rt: &R,
    alloc: Global,
    row: &Row,
    disk: MemDisk,
) -> Result<Over, AllocError> {
    let inputs = inputs_of(alloc, row.query, row.parts)?;
    run(rt, alloc, row, disk, inputs, MemOut::new(alloc))
}

/// Runs a row over an empty disk and one log, which may fail.
fn run_log<R: Threads + Wait + Sync>(
    rt: &R,
    alloc: Global,
    row: &Row,
    log: MemLog,
    out: MemOut,
) -> Result<Over, AllocError> {
    let inputs = MemInputs::new(alloc)
        .with_text(alloc, "q.sql", row.query)?
        .with_part(alloc, "s", log)?;
    run(rt, alloc, row, MemDisk::new(alloc), inputs, out)
}

/// Whether the disk has exactly these files.
pub(crate) fn holds<D: Disk>(alloc: Global, disk: &mut D, files: &[(Name, &[u8])]) -> bool {
    let Ok(names) = disk.names(alloc) else {
        return false;
    };
    let mut all = names.len() == files.len();
    for ((name, bytes), found) in files.iter().zip(names.as_slice()) {
        let read = match disk.read(alloc, *name) {
            Ok(Some(read)) => read.as_slice() == *bytes,
            _ => false,
        };
        all = all && read && *name == *found;
    }
    all
}

/// Whether the disk has this file.
pub(crate) fn has<D: Disk>(alloc: Global, disk: &mut D, file: (Name, &[u8])) -> bool {
    match disk.read(alloc, file.0) {
        Ok(Some(read)) => read.as_slice() == file.1,
        _ => false,
    }
}

/// Whether a run of the row over the disk ends as the row says.
pub(crate) fn ends_so<R: Threads + Wait + Sync>(
    rt: &R,
    alloc: Global,
    row: &Row,
    disk: MemDisk,
) -> Result<bool, AllocError> {
    let Ended {
        status,
        mut disk,
        inputs: _,
        out,
    } = run_on(rt, alloc, row, disk)?;
    Ok(out.bytes() == row.out && status == row.status && holds(alloc, &mut disk, row.after))
}

/// The disk of a run, where it ended with this status and told this.
pub(crate) fn disk_after(over: Over, status: u8, told: &[u8]) -> Option<MemDisk> {
    let Ended {
        status: ended,
        disk,
        inputs: _,
        out,
    } = over;
    if ended == status && out.bytes() == told {
        Some(disk)
    } else {
        None
    }
}

/// Whether a run of the row over the disk leaves all files of the first row.
fn is_done_after<R: Threads + Wait + Sync>(
    rt: &R,
    alloc: Global,
    row: &Row,
    disk: MemDisk,
) -> Result<bool, AllocError> {
    let Ended { mut disk, .. } = run_on(rt, alloc, row, disk)?;
    Ok(holds(alloc, &mut disk, DONE))
}

#[test]
fn worked_rows(rt: HostRuntime) -> Result<(), Fail> {
    let alloc = rt.alloc();
    for row in worked_runs() {
        let disk = disk_of(alloc, row.before).expect(&rt, "memory");
        assert!(rt; ends_so(&rt, alloc, row, disk)?);
    }
    Ok(())
}

#[test]
fn refusals_are_told(rt: HostRuntime) -> Result<(), Fail> {
    let alloc = rt.alloc();
    for row in &REFUSED {
        let disk = disk_of(alloc, row.before).expect(&rt, "memory");
        assert!(rt; ends_so(&rt, alloc, row, disk)?);
    }
    Ok(())
}

/// The lines that tell why queries are not run, for each rule of modes.
static UNRUN: [(&[u8], &[u8]); 11] = [
    (
        b"CREATE STREAM s (ts TIMESTAMP) FROM 's'; SELECT window_start, COUNT(*) AS n FROM s GROUP BY WINDOW(ts, '5 minutes') OUTPUT APPEND;",
        b"stopped 3 AppendNeedsWatermark\n",
    ),
    (
        b"CREATE STREAM s (id BIGINT, v BIGINT) FROM 's'; SELECT id, v + 1 AS w FROM s WHERE v > 10 OUTPUT COMPLETE;",
        b"stopped 3 CompleteNeedsAggregate\n",
    ),
    (
        b"CREATE STREAM l (id BIGINT, t TIMESTAMP) FROM 'l' WATERMARK FOR t DELAY '10 minutes'; CREATE STREAM r (id BIGINT, t TIMESTAMP) FROM 'r' WATERMARK FOR t DELAY '10 minutes'; SELECT l.id, l.t AS lt, r.t AS rt FROM l JOIN r ON l.id = r.id AND r.t BETWEEN l.t AND l.t + INTERVAL '1 hour' OUTPUT UPDATE;",
        b"stopped 3 JoinNeedsAppend\n",
    ),
    (
        b"CREATE STREAM l (id BIGINT, t TIMESTAMP) FROM 'l' WATERMARK FOR t DELAY '10 minutes'; CREATE STREAM r (id BIGINT, t TIMESTAMP) FROM 'r' WATERMARK FOR t DELAY '10 minutes'; SELECT l.id, r.t AS rt FROM l LEFT JOIN r ON l.id = r.id OUTPUT APPEND;",
        b"stopped 3 OuterNeedsBound\n",
    ),
    (
        b"CREATE STREAM l (id BIGINT, t TIMESTAMP) FROM 'l' WATERMARK FOR t DELAY '10 minutes'; CREATE STREAM r (id BIGINT, t TIMESTAMP) FROM 'r'; SELECT l.id, l.t AS lt, r.t AS rt FROM l JOIN r ON l.id = r.id AND r.t BETWEEN l.t AND l.t + INTERVAL '1 hour' OUTPUT APPEND;",
        b"stopped 3 BoundNeedsWatermark\n",
    ),
    (
        b"CREATE STREAM s (k STRING) FROM 's'; SELECT k, COUNT(*) AS n FROM s GROUP BY k ORDER BY n DESC OUTPUT UPDATE;",
        b"stopped 3 SortNeedsComplete\n",
    ),
    (
        b"CREATE STREAM s (k STRING, v BIGINT) FROM 's'; SELECT k, SUM(v) AS t FROM s WHERE v > 0 GROUP BY k HAVING SUM(v) > 1 OUTPUT UPDATE;",
        b"stopped 3 HavingInUpdate\n",
    ),
    (
        b"CREATE STREAM s (k STRING, v BIGINT) FROM 's'; SELECT SUM(v) AS t FROM s WHERE v > 0 GROUP BY k OUTPUT UPDATE;",
        b"stopped 3 KeyNotShown\n",
    ),
    (
        b"CREATE STREAM s (id BIGINT) FROM 's';\nSELECT id FROM s LIMIT 3 OUTPUT APPEND;",
        b"stopped 3 Limit at 55\n",
    ),
    (
        b"CREATE STREAM s (id BIGINT) FROM 's';\nSELECT DISTINCT id FROM s OUTPUT APPEND;",
        b"stopped 3 Distinct at 45\n",
    ),
    (b"", b"stopped 3 Expected at 0\n"),
];

#[test]
fn queries_are_not_run(rt: HostRuntime) -> Result<(), Fail> {
    let alloc = rt.alloc();
    for (query, line) in &UNRUN {
        let row = Row {
            words: RUN,
            query: *query,
            before: &[],
            parts: &[],
            out: *line,
            status: 3,
            after: &[],
        };
        assert!(rt; ends_so(&rt, alloc, &row, MemDisk::new(alloc))?);
    }
    Ok(())
}

#[test]
fn too_many_lines_are_told(rt: HostRuntime) -> Result<(), Fail> {
    let alloc = rt.alloc();
    let log = MemLog::repeat(alloc, b"{}", 1_099_511_627_777)?;
    let over = run_log(&rt, alloc, &worked_runs()[2], log, MemOut::new(alloc))?;
    let told = b"stopped 11 Full lines s 0 1099511627777\n";
    assert!(rt; disk_after(over, 11, told).is_some());
    Ok(())
}

#[test]
fn too_many_parts_are_told(rt: HostRuntime) -> Result<(), Fail> {
    let alloc = rt.alloc();
    let mut inputs = MemInputs::new(alloc).with_text(alloc, "q.sql", FILTER)?;
    for _ in 0..65 {
        inputs = inputs.with_part(alloc, "s", MemLog::torn(alloc, b"")?)?;
    }
    let over = run(
        &rt,
        alloc,
        &worked_runs()[2],
        MemDisk::new(alloc),
        inputs,
        MemOut::new(alloc),
    )?;
    assert!(rt; disk_after(over, 11, b"stopped 11 Full parts s 65\n").is_some());
    Ok(())
}

/// Of 64 parts one has lines.
#[test]
fn one_of_many_parts_grows(rt: HostRuntime) -> Result<(), Fail> {
    let alloc = rt.alloc();
    let row = &worked_runs()[0];
    let mut inputs = MemInputs::new(alloc).with_text(alloc, "q.sql", FILTER)?;
    for part in 0..64 {
        let lines = if part == 40 { THREE } else { b"".as_slice() };
        inputs = inputs.with_part(alloc, "s", MemLog::torn(alloc, lines)?)?;
    }
    let over = run(
        &rt,
        alloc,
        row,
        MemDisk::new(alloc),
        inputs,
        MemOut::new(alloc),
    )?;
    let mut disk = disk_after(over, 0, TOLD).expect(&rt, "both epochs");
    assert!(rt; has(alloc, &mut disk, OUT_0) && has(alloc, &mut disk, OUT_1));
    Ok(())
}

/// The output fails once the round is done: the checkpoint is whole, and a further run has nothing to do.
#[test]
fn a_failing_output_is_told(rt: HostRuntime) -> Result<(), Fail> {
    let alloc = rt.alloc();
    let row = &worked_runs()[0];
    let log = MemLog::torn(alloc, THREE)?;
    let out = MemOut::new(alloc).failing(vec![in alloc; 0]?);
    let over = run_log(&rt, alloc, row, log, out)?;
    let mut disk = disk_after(over, 8, b"stopped 8 OutFault\n").expect(&rt, "its fault");
    assert!(rt; holds(alloc, &mut disk, DONE));
    let over = run_on(&rt, alloc, row, disk)?;
    assert!(rt; disk_after(over, 0, b"done epochs 2\n").is_some());
    Ok(())
}

/// The log fails at the first line that is read: the epoch is planned and no more.
#[test]
fn a_failing_log_is_told(rt: HostRuntime) -> Result<(), Fail> {
    let alloc = rt.alloc();
    let log = MemLog::torn(alloc, THREE)?.failing(vec![in alloc; 1]?);
    let over = run_log(&rt, alloc, &worked_runs()[0], log, MemOut::new(alloc))?;
    let mut disk = disk_after(over, 6, b"stopped 6 LogFault\n").expect(&rt, "its fault");
    assert!(rt; holds(alloc, &mut disk, &[META, PLAN_0]));
    Ok(())
}

/// Of the first row the sync after the first commit fails. It is told alone, and any image of a crash, or the disk as it is, is run on
/// to the same rows.
#[test]
fn a_commit_that_is_not_synced(rt: HostRuntime) -> Result<(), Fail> {
    let alloc = rt.alloc();
    let row = &worked_runs()[0];
    let disk = MemDisk::new(alloc).failing(vec![in alloc; COMMIT_SYNC]?);
    let over = run_on(&rt, alloc, row, disk)?;
    let mut disk = disk_after(over, 7, FAULT).expect(&rt, "its fault");
    for image in &IMAGES {
        let crashed = disk.crash_at(alloc, u64::MAX, image)?;
        assert!(rt; is_done_after(&rt, alloc, row, crashed)?);
    }
    assert!(rt; holds(alloc, &mut disk, &[META, PLAN_0, COMMIT_0, OUT_0]));
    assert!(rt; is_done_after(&rt, alloc, row, disk)?);
    Ok(())
}

/// What a crash leaves of the first row's disk where the sync after the second epoch's rows failed: without these rows, or with them.
static AT_THE_SYNC: [Files; 2] = [&[META, PLAN_0, PLAN_1, COMMIT_0, OUT_0], HALF];

/// The disk of the first row's run whose sync after the second epoch's rows failed, and a crash that leaves these files.
fn crashed_at_the_sync<R: Threads + Wait + Sync>(
    rt: &R,
    alloc: Global,
    image: &[u64],
    left: Files,
) -> Result<Option<MemDisk>, AllocError> {
    let disk = MemDisk::new(alloc).failing(vec![in alloc; ROWS_SYNC]?);
    let Ended { status, disk, .. } = run_on(rt, alloc, &worked_runs()[0], disk)?;
    let mut crashed = disk.crash_at(alloc, u64::MAX, image)?;
    if status != 7 || !holds(alloc, &mut crashed, left) {
        return Ok(None);
    }
    Ok(Some(disk.crash_at(alloc, u64::MAX, image)?))
}

/// The disk after a run whose first sync failed, and a crash.
fn stopped_and_crashed<R: Threads + Wait + Sync>(
    rt: &R,
    alloc: Global,
    row: &Row,
    disk: MemDisk,
    image: &[u64],
) -> Result<Option<MemDisk>, AllocError> {
    let disk = disk.failing(vec![in alloc; FailAt::Disk(0)]?);
    let over = run_on(rt, alloc, row, disk)?;
    let Some(disk) = disk_after(over, 7, FAULT) else {
        return Ok(None);
    };
    Ok(Some(disk.crash_at(alloc, u64::MAX, image)?))
}

/// Of the first row the sync after the second epoch's rows fails, and a crash leaves them or not. Then twice the first sync of a run fails,
/// each time with a crash, and the run after that comes to the rows of the log that has grown.
#[test]
fn twice_the_first_sync_fails(rt: HostRuntime) -> Result<(), Fail> {
    let alloc = rt.alloc();
    let row = &worked_runs()[5];
    for (image, left) in IMAGES.iter().zip(&AT_THE_SYNC) {
        let disk = crashed_at_the_sync(&rt, alloc, image, left)?.expect(&rt, "its fault");
        let disk = stopped_and_crashed(&rt, alloc, row, disk, image)?.expect(&rt, "stopped");
        let disk = stopped_and_crashed(&rt, alloc, row, disk, image)?.expect(&rt, "stopped");
        assert!(rt; ends_so(&rt, alloc, row, disk)?);
    }
    Ok(())
}

#[test]
fn the_first_row_in_a_folder(rt: HostRuntime) -> Result<(), Fail> {
    let alloc = rt.alloc();
    let temporary = env::temp_dir(&rt)?;
    let own = process::id(rt.process());
    let base = format!(in alloc; "{}/ssq_rows-{own}", temporary.display())?;
    assert!(rt; base.len() < 150);
    let _ = fs::remove_dir_all(&rt, base.as_str());
    fs::create_dir(&rt, base.as_str())?;
    env::set_current_dir(&rt, base.as_str())?;
    fs::write(&rt, "q.sql", FILTER)?;
    fs::write(&rt, "s.0.jsonl", THREE)?;
    let words = words_of(alloc, BY_TWO)?;
    let over = stream_main(
        &rt,
        alloc,
        words.as_slice(),
        FolderDisk::new(rt, "checkpoint"),
        FolderInputs::new(rt),
        MemOut::new(alloc),
        &OpenGate,
    );
    let Ended {
        status,
        mut disk,
        inputs: _,
        out,
    } = over;
    assert_eq!(rt; out.bytes(), TOLD);
    assert_eq!(rt; status, 0);
    assert!(rt; holds(alloc, &mut disk, DONE));
    fs::remove_dir_all(&rt, base.as_str())?;
    Ok(())
}
