//! Each call once, each kind of fault once, and crashes of one small history.

use ssq_fakes::{FailAt, MemDisk, MemInputs, MemLog, MemOut, OpenGate, each_image_is_picked};
use ssq_outside::{
    Disk, DiskError, DiskFault, Gate, InputError, Inputs, Kind, LineError, Log, LogFault, Name,
    OutError, Output, Stage, StageError, TaskId, seal,
};
use std::alloc::Global;
use std::test::Fail;

#[test]
fn output(rt: HostRuntime) -> Result<(), Fail> {
    let alloc = rt.alloc();
    let mut out = MemOut::new(alloc).failing(vec![in alloc; 1]?);
    out.put(b"epoch 0\n")?;
    assert_eq!(rt; out.put(b"lost"), Err(OutError::Fault));
    out.put(b"done")?;
    assert_eq!(rt; out.bytes(), b"epoch 0\ndone".as_slice());
    Ok(())
}

#[test]
fn gate() {
    let task = TaskId {
        epoch: 0,
        kind: Kind::Map,
        number: 0,
    };
    OpenGate.at(task);
}

/// The lines of a log, each with a bar after it.
fn read_all(alloc: Global, mut log: MemLog) -> Result<Vec<u8>, Fail> {
    let mut all = Vec::new(alloc);
    let mut line = Vec::new(alloc);
    for at in 0..log.lines()? {
        log.line(at, &mut line)?;
        all.extend_from_slice(&line)?;
        all.push(b'|')?;
    }
    Ok(all)
}

#[test]
fn logs(rt: HostRuntime) -> Result<(), Fail> {
    let alloc = rt.alloc();
    let given = vec![in alloc; b"one".to_vec(alloc)?, b"".to_vec(alloc)?]?;
    assert_eq!(rt;
        read_all(alloc, MemLog::of(alloc, given)?)?.as_slice(),
        b"one||".as_slice()
    );
    let repeated = MemLog::repeat(alloc, b"{}", 3)?;
    assert_eq!(rt;
        read_all(alloc, repeated)?.as_slice(),
        b"{}|{}|{}|".as_slice()
    );

    let whole: [(&[u8], &[u8]); 5] = [
        (b"", b""),
        (b"\n", b"|"),
        (b"a\nb", b"a|"),
        (b"a\n\nbc\n", b"a||bc|"),
        (b"torn", b""),
    ];
    for (bytes, want) in whole {
        let log = MemLog::torn(alloc, bytes)?;
        assert_eq!(rt; read_all(alloc, log)?.as_slice(), want);
    }
    Ok(())
}

#[test]
fn faults_of_logs(rt: HostRuntime) -> Result<(), Fail> {
    let alloc = rt.alloc();
    let mut log = MemLog::repeat(alloc, b"x", 1)?.failing(vec![in alloc; 0, 2]?);
    let mut line = Vec::new(alloc);
    assert_eq!(rt; log.lines(), Err(LogFault));
    assert_eq!(rt; log.line(1, &mut line), Err(LineError::Short { found: 1 }));
    assert_eq!(rt; log.line(0, &mut line), Err(LineError::Fault));
    log.line(0, &mut line)?;
    assert_eq!(rt; line.as_slice(), b"x".as_slice());
    Ok(())
}

/// What opening a part answers, if it is there.
pub(crate) fn open(
    alloc: Global,
    inputs: &mut MemInputs,
    stream: &str,
    part: u32,
) -> Result<Result<MemLog, InputError>, Fail> {
    if part < inputs.parts(alloc, stream)? {
        Ok(inputs.log(alloc, stream, part))
    } else {
        Err(Fail::from("no such part"))
    }
}

#[test]
fn inputs(rt: HostRuntime) -> Result<(), Fail> {
    let alloc = rt.alloc();
    let mut inputs = MemInputs::new(alloc)
        .with_text(alloc, "q", b"old")?
        .with_text(alloc, "q", b"from n")?
        .with_part(alloc, "n", MemLog::torn(alloc, b"1\n2\n")?)?
        .with_part(alloc, "m", MemLog::torn(alloc, b"3\n")?)?
        .with_part(alloc, "n", MemLog::torn(alloc, b"4\n")?)?
        .failing(vec![in alloc; 0, 4, 6]?);
    assert_eq!(rt; inputs.text(alloc, "q", 9).err(), Some(InputError::Fault));
    assert_eq!(rt; inputs.text(alloc, "q", 4)?.as_slice(), b"from".as_slice());
    assert_eq!(rt; inputs.text(alloc, "r", 9)?.as_slice(), b"".as_slice());
    assert_eq!(rt; inputs.parts(alloc, "o")?, 0);
    assert_eq!(rt; inputs.parts(alloc, "n"), Err(InputError::Fault));
    assert_eq!(rt;
        open(alloc, &mut inputs, "n", 1)?.err(),
        Some(InputError::Fault)
    );
    let log = open(alloc, &mut inputs, "n", 1)??;
    inputs.give_back(log);
    let again = open(alloc, &mut inputs, "n", 1)??;
    assert_eq!(rt; read_all(alloc, again)?.as_slice(), b"4|".as_slice());
    Ok(())
}

/// Publishes these bytes under the name.
fn put(alloc: Global, disk: &mut MemDisk, name: Name, bytes: &[u8]) -> Result<(), Fail> {
    let file = seal(alloc, disk, bytes)?;
    Ok(disk.publish(file, name)?)
}

/// The bytes under the name, or a bar where there is no file.
fn get(alloc: Global, disk: &mut MemDisk, name: Name) -> Result<Vec<u8>, Fail> {
    match disk.read(alloc, name)? {
        Some(bytes) => Ok(bytes),
        None => Ok(b"|".to_vec(alloc)?),
    }
}

#[test]
fn crashes(rt: HostRuntime) -> Result<(), Fail> {
    let alloc = rt.alloc();
    let mut disk = MemDisk::new(alloc);
    put(alloc, &mut disk, Name::Meta, b"m1")?;
    disk.sync_names()?;
    disk.sync_names()?;
    put(alloc, &mut disk, Name::Plan(0), b"p")?;
    put(alloc, &mut disk, Name::Meta, b"m2")?;
    disk.remove(Name::Meta)?;
    disk.remove(Name::Commit(0))?;
    assert_eq!(rt; disk.clock(), 5);

    // a moment, the numbers of an image, and what it leaves of both names
    let rows: [(u64, &[u64], &[u8], &[u8]); 9] = [
        (0, &[], b"|", b"|"),
        (1, &[], b"|", b"|"),
        (1, &[1], b"m1", b"|"),
        (2, &[9], b"m1", b"|"),
        (3, &[1], b"m1", b"p"),
        (4, &[1], b"m2", b"|"),
        (5, &[0, 1], b"m1", b"p"),
        (5, &[1, 0, 9], b"m2", b"|"),
        (9, &[9, 9], b"|", b"p"),
    ];
    for (moment, image, meta, plan) in rows {
        let mut after = disk.crash_at(alloc, moment, image)?;
        assert_eq!(rt; after.clock(), 0);
        assert_eq!(rt; get(alloc, &mut after, Name::Meta)?.as_slice(), meta);
        assert_eq!(rt; get(alloc, &mut after, Name::Plan(0))?.as_slice(), plan);
        after.remove(Name::Meta)?;
        after.sync_names()?;
        let mut last = after.crash_at(alloc, u64::MAX, &[])?;
        assert_eq!(rt;
            get(alloc, &mut last, Name::Meta)?.as_slice(),
            b"|".as_slice()
        );
        assert_eq!(rt; get(alloc, &mut last, Name::Plan(0))?.as_slice(), plan);
    }
    each_image_is_picked();
    Ok(())
}

#[test]
fn names(rt: HostRuntime) -> Result<(), Fail> {
    let alloc = rt.alloc();
    let mut disk = MemDisk::new(alloc);
    let order = [
        Name::Meta,
        Name::Plan(1),
        Name::Plan(2),
        Name::Commit(0),
        Name::Out(0),
        Name::Delta(0, 3),
        Name::Delta(1, 2),
        Name::Snapshot(0, 0),
    ];
    for name in order.iter().rev() {
        put(alloc, &mut disk, *name, b"x")?;
        put(alloc, &mut disk, *name, b"y")?;
    }
    put(alloc, &mut disk, Name::Plan(0), b"z")?;
    disk.remove(Name::Plan(0))?;
    assert_eq!(rt; disk.names(alloc)?.as_slice(), order.as_slice());
    Ok(())
}

/// A call of each kind that can fail, all answers in a row.
fn calls(alloc: Global, disk: &mut MemDisk) -> Result<[bool; 8], Fail> {
    let staged = disk.stage(alloc);
    let stage_failed = matches!(staged, Err(DiskError::Fault));
    let mut stage = match staged {
        Ok(stage) => stage,
        Err(_) => disk.stage(alloc)?,
    };
    let write_failed = stage.write(b"x") == Err(StageError::Fault);
    let (sync_failed, publish_failed) = match stage.sync() {
        Ok(file) => (false, disk.publish(file, Name::Meta) == Err(DiskFault)),
        Err(stage) => {
            disk.discard(stage);
            (true, false)
        }
    };
    Ok([
        stage_failed,
        write_failed,
        sync_failed,
        publish_failed,
        disk.remove(Name::Out(7)) == Err(DiskFault),
        disk.sync_names() == Err(DiskFault),
        disk.read(alloc, Name::Meta).err() == Some(DiskError::Fault),
        disk.names(alloc).err() == Some(DiskError::Fault),
    ])
}

#[test]
fn faults_of_disks(rt: HostRuntime) -> Result<(), Fail> {
    let alloc = rt.alloc();
    let rows = [
        (
            FailAt::Disk(0),
            [true, false, false, false, false, false, false, false],
        ),
        (
            FailAt::Stage(0, 0),
            [false, true, false, false, false, false, false, false],
        ),
        (
            FailAt::Stage(0, 1),
            [false, false, true, false, false, false, false, false],
        ),
        (
            FailAt::Disk(1),
            [false, false, false, true, false, false, false, false],
        ),
        (
            FailAt::Disk(2),
            [false, false, false, false, true, false, false, false],
        ),
        (
            FailAt::Disk(3),
            [false, false, false, false, false, true, false, false],
        ),
        (
            FailAt::Disk(4),
            [false, false, false, false, false, false, true, false],
        ),
        (
            FailAt::Disk(5),
            [false, false, false, false, false, false, false, true],
        ),
        (FailAt::Stage(1, 0), [false; 8]),
    ];
    for (at, want) in rows {
        let mut disk = MemDisk::new(alloc).failing(vec![in alloc; at]?);
        assert_eq!(rt; calls(alloc, &mut disk)?, want, "at {at:?}");
    }
    let mut stopped = MemDisk::new(alloc).stop_after(3);
    let want = [false, false, false, false, false, true, true, true];
    assert_eq!(rt; calls(alloc, &mut stopped)?, want);
    Ok(())
}
