//! What no clause says: what a folder and a file of lines hold.

use ssq_files::{FolderDisk, FolderInputs};
use ssq_outside::{Disk, Inputs, LineError, Log, Name, Stage};
use std::alloc::{AllocGlobal, Global};
use std::env::Env;
use std::fs::{Files, OpenOptions};
use std::io::Write;
use std::process::Abort;
use std::{env, fs, process};

/// The files of a checkpoint, not in their order.
const FILES: [(Name, &[u8]); 8] = [
    (Name::Snapshot(3, 9), b"snapshot"),
    (Name::Delta(3, 10), b"changes"),
    (Name::Delta(3, 9), b""),
    (Name::Out(0), b"{\"id\":1,\"w\":12}\n"),
    (Name::Commit(0), b"v1\ncommit 0\nend\n"),
    (Name::Plan(10), b"ten"),
    (Name::Plan(9), b"nine"),
    (Name::Meta, b"v1\n"),
];

/// Files in its folders that no run writes: beside the plans, and beside what is left aside.
const FOREIGN: [&str; 4] = ["offsets/010", "aside/007", "aside/+5", "aside/note"];

/// Publishes the bytes under the name, in two writes.
fn put<D: Disk>(rt: &impl Abort, alloc: Global, disk: &mut D, name: Name, bytes: &[u8]) {
    let mut stage = disk.stage(alloc).expect(rt, "a stage");
    let (front, back) = bytes.split_at(bytes.len() / 2);
    stage.write(front).expect(rt, "the first write");
    stage.write(back).expect(rt, "the second write");
    match stage.sync() {
        Ok(sealed) => disk.publish(sealed, name).expect(rt, "a publish"),
        Err(stage) => disk.discard(stage),
    }
}

/// Whether the disk has exactly these files, which stand here the other way round.
fn holds<D: Disk>(alloc: Global, disk: &mut D, files: &[(Name, &[u8])]) -> bool {
    let Ok(names) = disk.names(alloc) else {
        return false;
    };
    let mut all = names.len() == files.len();
    for ((name, bytes), found) in files.iter().rev().zip(names.as_slice()) {
        let read = match disk.read(alloc, *name) {
            Ok(Some(read)) => read.as_slice() == *bytes,
            _ => false,
        };
        all = all && read && *name == *found;
    }
    all
}

/// Whether the log has exactly these lines.
fn reads<L: Log>(alloc: Global, log: &mut L, lines: &[&[u8]]) -> bool {
    let mut buffer = Vec::new(alloc);
    let mut all = log.lines() == Ok(lines.len() as u64);
    for (at, line) in lines.iter().enumerate() {
        all = all && log.line(at as u64, &mut buffer) == Ok(()) && buffer.as_slice() == *line;
    }
    all
}

/// A new folder for a test.
fn folder<R: Abort + AllocGlobal + Env + Files>(rt: &R, own: u32, name: &str) -> String {
    let alloc = rt.alloc();
    let temporary = env::temp_dir(rt).expect(rt, "the folder of temporary files");
    let base = format!(in alloc; "{}/ssq_{name}-{own}", temporary.display()).expect(rt, "memory");
    let _ = fs::remove_dir_all(rt, base.as_str());
    fs::create_dir(rt, base.as_str()).expect(rt, "the test's folder");
    base
}

/// A folder that is not there is an empty disk. It is made with the first file.
#[test]
fn a_folder_has_what_is_published(rt: HostRuntime) {
    let alloc = rt.alloc();
    let root = folder(&rt, process::id(rt.process()), "published");
    assert!(rt; root.len() <= 180);
    let path = format!(in alloc; "{root}/checkpoint").expect(&rt, "memory");
    assert!(rt; path.len() <= 192);
    let mut disk = FolderDisk::new(rt, path.as_str());
    assert_eq!(rt; disk.sync_names(), Ok(()));
    assert!(rt; holds(alloc, &mut disk, &[]));
    for (name, bytes) in FILES {
        put(&rt, alloc, &mut disk, name, bytes);
    }
    assert_eq!(rt; disk.sync_names(), Ok(()));
    assert!(rt; holds(alloc, &mut disk, &FILES));
    assert_eq!(rt; disk.remove(Name::Snapshot(3, 9)), Ok(()));
    assert_eq!(rt; disk.remove(Name::Snapshot(4, 9)), Ok(()));
    assert_eq!(rt; disk.sync_names(), Ok(()));
    assert!(rt; holds(alloc, &mut disk, &FILES[1..]));
    fs::remove_dir_all(&rt, root.as_str()).expect(&rt, "the folder goes");
}

/// Writes a file in a folder.
fn write(rt: &(impl Abort + Files), alloc: Global, root: &str, path: &str) {
    let path = format!(in alloc; "{root}/{path}").expect(rt, "memory");
    fs::write(rt, path.as_str(), "foreign").expect(rt, "a file");
}

/// Whether a file is in a folder.
fn is_there(rt: &(impl Abort + Files), alloc: Global, root: &str, path: &str) -> bool {
    let path = format!(in alloc; "{root}/{path}").expect(rt, "memory");
    fs::metadata(rt, path.as_str()).is_ok()
}

/// A later run takes away what was left aside, and leaves other files alone.
#[test]
fn a_later_run_clears_what_is_aside(rt: HostRuntime) {
    let alloc = rt.alloc();
    let root = folder(&rt, process::id(rt.process()), "aside");
    assert!(rt; root.len() <= 192);
    let mut disk = FolderDisk::new(rt, root.as_str());
    put(&rt, alloc, &mut disk, Name::Plan(9), b"nine");
    assert_eq!(rt; disk.sync_names(), Ok(()));
    for path in FOREIGN {
        write(&rt, alloc, root.as_str(), path);
    }
    write(&rt, alloc, root.as_str(), "aside/7");
    let mut later = FolderDisk::new(rt, root.as_str());
    assert!(rt; holds(alloc, &mut later, &[(Name::Plan(9), b"nine")]));
    assert_eq!(rt; later.sync_names(), Ok(()));
    assert!(rt; !is_there(&rt, alloc, root.as_str(), "aside/7"));
    for path in FOREIGN {
        assert!(rt; is_there(&rt, alloc, root.as_str(), path), "{path}");
    }
    fs::remove_dir_all(&rt, root.as_str()).expect(&rt, "the folder goes");
}

/// Adds a line's end to a file.
fn end_line(rt: &(impl Abort + Files), path: &str) {
    let mut file = OpenOptions::new()
        .append(true)
        .open(rt, path)
        .expect(rt, "the log");
    file.write_all(b"c\n").expect(rt, "the log grows");
}

/// A last line without its end is not there until its end comes.
#[test]
fn a_file_of_lines_is_a_log(rt: HostRuntime) {
    let alloc = rt.alloc();
    let base = folder(&rt, process::id(rt.process()), "lines");
    let stream = format!(in alloc; "{base}/n").expect(&rt, "memory");
    let path = format!(in alloc; "{base}/n.0.jsonl").expect(&rt, "memory");
    fs::write(&rt, path.as_str(), "a\n\nbb\ncc").expect(&rt, "the log");
    let mut inputs = FolderInputs::new(rt);
    assert_eq!(rt; inputs.parts(alloc, stream.as_str()), Ok(1));
    assert_eq!(rt; inputs.parts(alloc, "no\0file/"), Ok(0));
    let mut log = inputs
        .log(alloc, stream.as_str(), 0)
        .expect(&rt, "the log opens");
    assert!(rt; reads(alloc, &mut log, &[b"a", b"", b"bb"]));
    let mut line = Vec::new(alloc);
    assert_eq!(rt; log.line(3, &mut line), Err(LineError::Short { found: 3 }));
    end_line(&rt, path.as_str());
    assert!(rt; reads(alloc, &mut log, &[b"a", b"", b"bb", b"ccc"]));
    inputs.give_back(log);
    fs::remove_dir_all(&rt, base.as_str()).expect(&rt, "the folder goes");
}

/// The front of a file, and nothing where there is none.
#[test]
fn a_text_is_read_by_its_path(rt: HostRuntime) {
    let alloc = rt.alloc();
    let base = folder(&rt, process::id(rt.process()), "text");
    let path = format!(in alloc; "{base}/q.sql").expect(&rt, "memory");
    fs::write(&rt, path.as_str(), "a\n\nbb").expect(&rt, "the file");
    let mut inputs = FolderInputs::new(rt);
    let text = inputs
        .text(alloc, path.as_str(), 4)
        .expect(&rt, "the front of the file");
    assert_eq!(rt; text.as_slice(), b"a\n\nb".as_slice());
    for absent in ["", "no\0file", base.as_str()] {
        let text = inputs.text(alloc, absent, 4).expect(&rt, "no file");
        assert!(rt; text.is_empty(), "{absent:?}");
    }
    fs::remove_dir_all(&rt, base.as_str()).expect(&rt, "the folder goes");
}
