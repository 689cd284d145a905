//! Files as inputs.

ghost use Rattle.std.specs.Prelude.{◌≡◌, ◌≤◌, [], IfOk, length};
ghost use Rattle.ssq_outside.specs.Faults.{Rises};

use crate::faults::raise;
use crate::log::FileLog;
use ssq_outside::{InputError, Inputs};
use std::alloc::{AllocError, Global};
use std::io::{ErrorKind, Read};
use std::rt::Files;
use std::{fs, io};

/// How far parts are counted: one more than a stream may have.
const PARTS_CAP: u32 = 65;

/// The files that paths name. Part `i` of a stream `n` is the file `n.i.jsonl`.
///
/// A path that no file can have, as one with a NUL, and a folder's, are those of a file that is not there.
#[derive(Drop)]
pub struct FolderInputs<R> {
    files: InputFiles<R>,
    faults: u64,
}

impl<R: Files + Drop> FolderInputs<R> {
    /// The files of this runtime. Paths that begin with no slash begin in its current folder.
    pub fn new(rt: R) -> FolderInputs<R>
        ensures count { ⟦<FolderInputs<R> as Inputs>⟧.faults result ≡ 0 }
    {
        FolderInputs {
            files: InputFiles { rt },
            faults: 0,
        }
    }

    /// What an error means. That memory ran out is no fault.
    fn failed(&mut self, error: io::Error) -> InputError
        ensures counted { self.old.faults ≤ self.new.faults }
        ensures cause { result ≡ InputError.Fault → Rises self.old.faults self.new.faults }
    {
        match error.kind() {
            ErrorKind::OutOfMemory => InputError::NoMemory,
            _ => {
                raise(&mut self.faults);
                InputError::Fault
            }
        }
    }
}

impl<R: Files + Drop> Inputs for FolderInputs<R> {
    type Log = FileLog<R::File>;

    ghost tells = { ⊥ };

    ghost held = { λ _. record { text = λ _. []; parts = λ _. 0; lines = λ _ _. [] } };

    ghost available = { λ _ _ _. 0 };

    ghost returned = { λ _. [] };

    ghost faults = { λ inputs. inputs.faults };

    ghost sure = { λ _. ⊥ };

    ghost logs_tell = { λ never. never };

    fn text(&mut self, alloc: Global, name: &str, max: usize) -> Result<Vec<u8>, InputError> {
        match self.files.text(alloc, name, max) {
            Ok(bytes) => Ok(bytes),
            Err(e) => Err(self.failed(e)),
        }
    }

    fn parts(&mut self, alloc: Global, stream: &str) -> Result<u32, InputError> {
        match self.files.parts(alloc, stream) {
            Ok(count) => Ok(count),
            Err(e) => Err(self.failed(e)),
        }
    }

    fn log(&mut self, alloc: Global, stream: &str, part: u32) -> Result<Self::Log, InputError> {
        match self.files.log(alloc, stream, part) {
            Ok(log) => Ok(log),
            Err(e) => Err(self.failed(e)),
        }
    }

    fn give_back(&mut self, log: Self::Log) {
        self.faults = self.faults.saturating_add(log.faults());
    }
}

#[derive(Drop)]
struct InputFiles<R> {
    rt: R,
}

impl<R: Files + Drop> InputFiles<R> {
    fn text(&self, alloc: Global, path: &str, max: usize) -> io::Result<Vec<u8>>
        ensures { IfOk result (λ bytes. length bytes.items ≤ max) }
    {
        match self.read(alloc, path, max) {
            Ok(bytes) => Ok(bytes),
            Err(e) if is_absent(&e) => Ok(Vec::new(alloc)),
            Err(e) => Err(e),
        }
    }

    /// At most so many bytes from the front of a file.
    fn read(&self, alloc: Global, path: &str, max: usize) -> io::Result<Vec<u8>>
        ensures { IfOk result (λ bytes. length bytes.items ≤ max) }
    {
        let file = fs::open(&self.rt, path)?;
        let mut bytes = Vec::new(alloc);
        file.take(max as u64).read_to_end(&mut bytes)?;
        bytes.truncate(max);
        Ok(bytes)
    }

    fn parts(&self, alloc: Global, stream: &str) -> io::Result<u32>
        ensures { IfOk result (λ n. n ≤ 65) }
    {
        for part in 0..PARTS_CAP {
            let path = part_path(alloc, stream, part)?;
            if !self.is_file(path.as_str())? {
                return Ok(part);
            }
        }
        Ok(PARTS_CAP)
    }

    fn is_file(&self, path: &str) -> io::Result<bool> {
        match fs::metadata(&self.rt, path) {
            Ok(found) => Ok(!found.is_dir()),
            Err(e) if is_absent(&e) => Ok(false),
            Err(e) => Err(e),
        }
    }

    fn log(&self, alloc: Global, stream: &str, part: u32) -> io::Result<FileLog<R::File>>
        ensures { IfOk result (λ log. log.faults ≡ 0) }
    {
        let path = part_path(alloc, stream, part)?;
        FileLog::new(alloc, fs::open(&self.rt, path.as_str())?)
    }
}

/// The file of a part.
fn part_path(alloc: Global, stream: &str, part: u32) -> Result<String, AllocError> {
    format!(in alloc; "{stream}.{part}.jsonl")
}

/// Whether an error says that no file has that path, or that none can.
fn is_absent(error: &io::Error) -> bool {
    match error.kind() {
        ErrorKind::NotFound
        | ErrorKind::NotADirectory
        | ErrorKind::IsADirectory
        | ErrorKind::FilesystemLoop
        | ErrorKind::InvalidInput
        | ErrorKind::InvalidFilename => true,
        _ => false,
    }
}
