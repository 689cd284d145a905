//! Worked files of a partition's state: what is written, what reads back, and what is no such file.

ghost use Rattle.std.specs.Prelude.{IfOk};
ghost use Rattle.ssq_version.specs.State.{IsShort};

use ssq_field::Bytes;
use ssq_version::{
    Change, Draft, StateMap, apply, read_delta, read_snapshot, write_delta, write_snapshot,
};
use std::alloc::{AllocError, AllocGlobal, Global};
use std::process::Abort;
use std::test::Fail;

/// The key of a group by the text `a`.
const KEY: &[u8] = b"\x04\0\0\0\x01a";

/// What the group keeps of a sum: one value, and the sum 2.
const VALUE: &[u8] = b"\0\0\0\0\0\0\0\x01\0\0\0\0\0\0\0\0\0\0\0\0\0\0\0\x02";

/// The delta of version 0 of partition 0 that gives the group its value.
const DELTA: &[u8] = b"SSQDELT1\0\0\0\0\0\0\0\0\0\0\0\0\0\0\0\x01\
    \x01\0\0\0\x06\x04\0\0\0\x01a\
    \0\0\0\x18\0\0\0\0\0\0\0\x01\0\0\0\0\0\0\0\0\0\0\0\0\0\0\0\x02";

/// The snapshot of version 9 of partition 0, which keeps that alone.
const SNAPSHOT: &[u8] = b"SSQSNAP1\0\0\0\0\0\0\0\x09\0\0\0\0\0\0\0\x01\
    \0\0\0\x06\x04\0\0\0\x01a\
    \0\0\0\x18\0\0\0\0\0\0\0\x01\0\0\0\0\0\0\0\0\0\0\0\0\0\0\0\x02";

/// The delta of version 2 of partition 1 in which the group goes.
const GONE: &[u8] = b"SSQDELT1\0\0\0\x01\0\0\0\x02\0\0\0\0\0\0\0\x01\
    \0\0\0\0\x06\x04\0\0\0\x01a";

/// Bytes, and whether they are a delta.
static DELTAS: [(&[u8], bool); 16] = [
    (DELTA, true),
    // A byte more, and a byte less.
    (
        b"SSQDELT1\0\0\0\0\0\0\0\0\0\0\0\0\0\0\0\x01\
        \x01\0\0\0\x06\x04\0\0\0\x01a\
        \0\0\0\x18\0\0\0\0\0\0\0\x01\0\0\0\0\0\0\0\0\0\0\0\0\0\0\0\x02\0",
        false,
    ),
    (
        b"SSQDELT1\0\0\0\0\0\0\0\0\0\0\0\0\0\0\0\x01\
        \x01\0\0\0\x06\x04\0\0\0\x01a\
        \0\0\0\x18\0\0\0\0\0\0\0\x01\0\0\0\0\0\0\0\0\0\0\0\0\0\0\0",
        false,
    ),
    // The first word of a snapshot.
    (
        b"SSQSNAP1\0\0\0\0\0\0\0\0\0\0\0\0\0\0\0\x01\
        \x01\0\0\0\x06\x04\0\0\0\x01a\
        \0\0\0\x18\0\0\0\0\0\0\0\x01\0\0\0\0\0\0\0\0\0\0\0\0\0\0\0\x02",
        false,
    ),
    (SNAPSHOT, false),
    (b"SSQDELT1\0\0\0\0\0\0\0\0\0\0\0\0\0\0\0\0", true),
    (b"SSQSNAP1\0\0\0\0\0\0\0\0\0\0\0\0\0\0\0\0", false),
    (b"SSQDELT1\0\0\0\0\0\0\0\0\0\0\0\0\0\0\0", false),
    (b"", false),
    // Two entries whose keys ascend, are one, and descend.
    (
        b"SSQDELT1\0\0\0\0\0\0\0\0\0\0\0\0\0\0\0\x02\0\0\0\0\x01a\0\0\0\0\x01b",
        true,
    ),
    (
        b"SSQDELT1\0\0\0\0\0\0\0\0\0\0\0\0\0\0\0\x02\0\0\0\0\x01a\0\0\0\0\x01a",
        false,
    ),
    (
        b"SSQDELT1\0\0\0\0\0\0\0\0\0\0\0\0\0\0\0\x02\0\0\0\0\x01b\0\0\0\0\x01a",
        false,
    ),
    // Another number of entries than there are.
    (
        b"SSQDELT1\0\0\0\0\0\0\0\0\0\0\0\0\0\0\0\x01\0\0\0\0\x01a\0\0\0\0\x01b",
        false,
    ),
    (
        b"SSQDELT1\0\0\0\0\0\0\0\0\0\0\0\0\0\0\0\x03\0\0\0\0\x01a\0\0\0\0\x01b",
        false,
    ),
    // No kind of entry.
    (
        b"SSQDELT1\0\0\0\0\0\0\0\0\0\0\0\0\0\0\0\x01\x02\0\0\0\x01a",
        false,
    ),
    (GONE, true),
];

/// Bytes, and whether they are a snapshot.
static SNAPSHOTS: [(&[u8], bool); 13] = [
    (SNAPSHOT, true),
    // A byte more, and a byte less.
    (
        b"SSQSNAP1\0\0\0\0\0\0\0\x09\0\0\0\0\0\0\0\x01\
        \0\0\0\x06\x04\0\0\0\x01a\
        \0\0\0\x18\0\0\0\0\0\0\0\x01\0\0\0\0\0\0\0\0\0\0\0\0\0\0\0\x02\0",
        false,
    ),
    (
        b"SSQSNAP1\0\0\0\0\0\0\0\x09\0\0\0\0\0\0\0\x01\
        \0\0\0\x06\x04\0\0\0\x01a\
        \0\0\0\x18\0\0\0\0\0\0\0\x01\0\0\0\0\0\0\0\0\0\0\0\0\0\0\0",
        false,
    ),
    // The first word of a delta.
    (
        b"SSQDELT1\0\0\0\0\0\0\0\x09\0\0\0\0\0\0\0\x01\
        \0\0\0\x06\x04\0\0\0\x01a\
        \0\0\0\x18\0\0\0\0\0\0\0\x01\0\0\0\0\0\0\0\0\0\0\0\0\0\0\0\x02",
        false,
    ),
    (DELTA, false),
    (b"SSQSNAP1\0\0\0\0\0\0\0\0\0\0\0\0\0\0\0\0", true),
    (b"SSQDELT1\0\0\0\0\0\0\0\0\0\0\0\0\0\0\0\0", false),
    (b"", false),
    // Two entries whose keys ascend, are one, and descend.
    (
        b"SSQSNAP1\0\0\0\0\0\0\0\0\0\0\0\0\0\0\0\x02\0\0\0\x01a\0\0\0\0\0\0\0\x01b\0\0\0\0",
        true,
    ),
    (
        b"SSQSNAP1\0\0\0\0\0\0\0\0\0\0\0\0\0\0\0\x02\0\0\0\x01a\0\0\0\0\0\0\0\x01a\0\0\0\0",
        false,
    ),
    (
        b"SSQSNAP1\0\0\0\0\0\0\0\0\0\0\0\0\0\0\0\x02\0\0\0\x01b\0\0\0\0\0\0\0\x01a\0\0\0\0",
        false,
    ),
    // Another number of entries than there are.
    (
        b"SSQSNAP1\0\0\0\0\0\0\0\0\0\0\0\0\0\0\0\x01\0\0\0\x01a\0\0\0\0\0\0\0\x01b\0\0\0\0",
        false,
    ),
    (
        b"SSQSNAP1\0\0\0\0\0\0\0\0\0\0\0\0\0\0\0\x03\0\0\0\x01a\0\0\0\0\0\0\0\x01b\0\0\0\0",
        false,
    ),
];

/// A key or a value.
fn short(alloc: Global, bytes: &[u8]) -> Result<Bytes, Fail>
    ensures { IfOk result IsShort }
{
    if bytes.len() <= u32::MAX as usize {
        Ok(Bytes::from_slice(alloc, bytes)?)
    } else {
        Err(Fail::from("no length of four bytes"))
    }
}

/// A change that says this, in any order of the keys.
fn said(alloc: Global, entries: &[(&[u8], Option<&[u8]>)]) -> Result<Change, Fail> {
    let mut draft = Draft::new(alloc);
    for (key, value) in entries {
        match value {
            Some(value) => draft.put(short(alloc, key)?, short(alloc, value)?)?,
            None => draft.remove(short(alloc, key)?)?,
        }
    }
    Ok(draft.into_change(alloc)?)
}

/// What a change says, each key on a line, with its value after `=` where it has one.
fn shown(alloc: Global, change: &Change) -> Result<Vec<u8>, AllocError> {
    let mut out = Vec::new(alloc);
    for (key, value) in change.iter() {
        out.extend_from_slice(key.as_slice())?;
        if let Some(value) = value {
            out.push(b'=')?;
            out.extend_from_slice(value.as_slice())?;
        }
        out.push(b'\n')?;
    }
    Ok(out)
}

/// What a state keeps, likewise.
fn kept(alloc: Global, state: &StateMap) -> Result<Vec<u8>, AllocError> {
    let mut out = Vec::new(alloc);
    for (key, value) in state.iter(alloc)? {
        out.extend_from_slice(key.as_slice())?;
        out.push(b'=')?;
        out.extend_from_slice(value.as_slice())?;
        out.push(b'\n')?;
    }
    Ok(out)
}

/// Whether these bytes are read as the delta that says this.
fn is_delta(
    rt: &(impl Abort + AllocGlobal),
    text: &[u8],
    numbers: (u32, u32),
    wanted: &[u8],
) -> Result<(), Fail> {
    let Some((partition, version, change)) = read_delta(rt.alloc(), text)? else {
        return Err(Fail::from("no delta"));
    };
    assert_eq!(rt; (partition, version), numbers);
    assert_eq!(rt; shown(rt.alloc(), &change)?.as_slice(), wanted);
    Ok(())
}

/// Whether these bytes are read as the snapshot that keeps this.
fn is_snapshot(
    rt: &(impl Abort + AllocGlobal),
    text: &[u8],
    numbers: (u32, u32),
    wanted: &[u8],
) -> Result<(), Fail> {
    let Some((partition, version, state)) = read_snapshot(rt.alloc(), text)? else {
        return Err(Fail::from("no snapshot"));
    };
    assert_eq!(rt; (partition, version), numbers);
    assert_eq!(rt; kept(rt.alloc(), &state)?.as_slice(), wanted);
    Ok(())
}

/// The state after a change.
fn changed(
    alloc: Global,
    state: StateMap,
    entries: &[(&[u8], Option<&[u8]>)],
) -> Result<StateMap, Fail> {
    let mut state = state;
    apply(alloc, &mut state, &said(alloc, entries)?)?;
    Ok(state)
}

#[test]
fn files_are_written_as_stated(rt: HostRuntime) -> Result<(), Fail> {
    let alloc = rt.alloc();
    let given = said(alloc, &[(KEY, Some(VALUE))])?;
    assert_eq!(rt; write_delta(alloc, 0, 0, &given)?.as_slice(), DELTA);
    let gone = said(alloc, &[(KEY, None)])?;
    assert_eq!(rt; write_delta(alloc, 1, 2, &gone)?.as_slice(), GONE);
    let mut state = StateMap::new(alloc);
    apply(alloc, &mut state, &given)?;
    assert_eq!(rt; write_snapshot(alloc, 0, 9, &state)?.as_slice(), SNAPSHOT);
    apply(alloc, &mut state, &gone)?;
    assert_eq!(rt;
        write_snapshot(alloc, 0, 10, &state)?.as_slice(),
        b"SSQSNAP1\0\0\0\0\0\0\0\x0a\0\0\0\0\0\0\0\0".as_slice()
    );
    Ok(())
}

#[test]
fn files_read_back(rt: HostRuntime) -> Result<(), Fail> {
    let entry = b"\x04\0\0\0\x01a=\0\0\0\0\0\0\0\x01\0\0\0\0\0\0\0\0\0\0\0\0\0\0\0\x02\n";
    is_delta(&rt, DELTA, (0, 0), entry)?;
    is_delta(&rt, GONE, (1, 2), b"\x04\0\0\0\x01a\n")?;
    is_snapshot(&rt, SNAPSHOT, (0, 9), entry)
}

#[test]
fn other_bytes_are_no_files(rt: HostRuntime) -> Result<(), Fail> {
    for (text, is_file) in &DELTAS {
        assert_eq!(rt;
            read_delta(rt.alloc(), text)?.is_some(),
            *is_file,
            "{text:?}"
        );
    }
    for (text, is_file) in &SNAPSHOTS {
        assert_eq!(rt;
            read_snapshot(rt.alloc(), text)?.is_some(),
            *is_file,
            "{text:?}"
        );
    }
    Ok(())
}

#[test]
fn a_change_says_what_keys_have(rt: HostRuntime) -> Result<(), Fail> {
    let alloc = rt.alloc();
    let first = changed(
        alloc,
        StateMap::new(alloc),
        &[
            (b"b", Some(b"1")),
            (b"a", Some(b"2")),
            (b"c", Some(b"3")),
            (b"d", None),
        ],
    )?;
    assert_eq!(rt;
        kept(alloc, &first)?.as_slice(),
        b"a=2\nb=1\nc=3\n".as_slice()
    );
    let next = changed(
        alloc,
        first,
        &[
            (b"e", Some(b"")),
            (b"c", None),
            (b"b", Some(b"4")),
            (b"d", None),
        ],
    )?;
    assert_eq!(rt;
        kept(alloc, &next)?.as_slice(),
        b"a=2\nb=4\ne=\n".as_slice()
    );
    // A state whose keys are found by their hashes is written in the order of keys too.
    let text = write_snapshot(alloc, 1, 2, &next.hashed(alloc)?)?;
    let wanted = b"SSQSNAP1\0\0\0\x01\0\0\0\x02\0\0\0\0\0\0\0\x03\
        \0\0\0\x01a\0\0\0\x012\0\0\0\x01b\0\0\0\x014\0\0\0\x01e\0\0\0\0";
    assert_eq!(rt; text.as_slice(), wanted.as_slice());
    is_snapshot(&rt, wanted, (1, 2), b"a=2\nb=4\ne=\n")
}
