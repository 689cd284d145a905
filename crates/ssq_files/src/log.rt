//! Files of lines as logs.

ghost use Rattle.std.specs.Prelude.{◌≡◌, ◌≤◌, ℕ, [], true, false, Ok, IfOk, OnOk, vec_len};

use crate::blocks::Blocks;
use crate::faults::raise;
use crate::marks::{Mark, Marks};
use memchr::{memchr, memchr_iter, memrchr};
use ssq_outside::{LineError, Log, LogFault};
use std::alloc::{AllocError, Global};
use std::io;
use std::io::{ErrorKind, Read, Seek};

/// The bytes that are kept of a line: one more than a line may have.
const LINE_CAP: usize = 1_048_577;

/// A file of lines, each ended by byte 0x0A.
///
/// The file is read in blocks, and what was counted or read is not read again to count more or to go on. Counting is
/// a pass of its own, which comes before the lines that it finds are asked for; a file of one block is read once.
#[derive(Drop)]
pub struct FileLog<F> {
    lines: Lines<F>,
    faults: u64,
}

impl<F: Read + Seek + Drop> FileLog<F> {
    /// The log of an open file. An error means that memory ran out.
    pub(crate) fn new(alloc: Global, file: F) -> io::Result<FileLog<F>>
        ensures { IfOk result (λ log. log.faults ≡ 0) }
    {
        let marks = Marks::new(alloc)?;
        let blocks = Blocks::new(alloc, file)?;
        Ok(FileLog {
            lines: Lines {
                blocks,
                counted: Mark::START,
                scanned: 0,
                marks,
                next: Mark::START,
            },
            faults: 0,
        })
    }

    /// How often it has failed.
    pub(crate) fn faults(&self) -> u64
        ensures { result ≡ self.now.faults }
    {
        self.faults
    }
}

impl<F: Read + Seek + Drop> Log for FileLog<F> {
    ghost tells = { ⊥ };

    ghost lines = { λ _. [] };

    ghost available = { λ _. 0 };

    ghost answers = { λ _. [] };

    ghost faults = { λ log. log.faults };

    ghost sure = { λ _. ⊥ };

    fn lines(&mut self) -> Result<u64, LogFault> {
        match self.lines.count() {
            Ok(()) => Ok(self.lines.counted.line),
            Err(_) => {
                raise(&mut self.faults);
                Err(LogFault)
            }
        }
    }

    fn line(&mut self, at: u64, into: &mut Vec<u8>) -> Result<(), LineError> {
        match self.lines.line(at, into) {
            Ok(true) => Ok(()),
            Ok(false) => Err(LineError::Short {
                found: self.lines.counted.line,
            }),
            Err(e) => match e.kind() {
                ErrorKind::OutOfMemory => Err(LineError::NoMemory),
                _ => {
                    raise(&mut self.faults);
                    Err(LineError::Fault)
                }
            },
        }
    }
}

/// A file and where in it lines begin.
#[derive(Drop)]
struct Lines<F> {
    blocks: Blocks<F>,
    /// Where the first line begins that was not counted: all whole lines before are.
    counted: Mark,
    /// The byte up to which the file was looked at to count.
    scanned: u64,
    /// Some of the beginnings of lines that were passed in counting.
    marks: Marks,
    /// Where the line begins that is read next.
    next: Mark,
}

impl<F: Read + Seek + Drop> Lines<F> {
    /// Counts the lines whose ends came since the last count.
    fn count(&mut self) -> io::Result<()> {
        for _ in 0..u64::MAX {
            let block = self.blocks.rest(self.scanned);
            if let Some(last) = memrchr(b'\n', block) {
                self.counted = Mark {
                    line: later(self.counted.line, ends_in(block)),
                    byte: later(self.scanned, last).saturating_add(1),
                };
                self.marks.pass(self.counted);
            }
            self.scanned = later(self.scanned, block.len());
            if !self.blocks.refill(self.scanned)? {
                break;
            }
        }
        Ok(())
    }

    /// Puts a line into the buffer. `false`: there is no such line yet.
    fn line(&mut self, at: u64, into: &mut Vec<u8>) -> io::Result<bool>
        ensures cap { result ≡ Ok true → vec_len into.new ≤ LINE_CAP }
        ensures short { result ≡ Ok false → self.new.counted.line ≤ at }
    {
        if self.counted.line <= at {
            self.count()?;
        }
        if self.counted.line <= at {
            return Ok(false);
        }
        if self.next.line != at {
            self.next = self.nearest(at);
        }
        for _ in self.next.line..at {
            self.take(into)?;
        }
        self.take(into)?;
        Ok(true)
    }

    /// Where a line begins, from which to go on to this one.
    fn nearest(&self, at: u64) -> Mark {
        let mark = self.marks.before(at);
        if self.next.line <= at && mark.line <= self.next.line {
            self.next
        } else {
            mark
        }
    }

    /// Puts the next line into the buffer, and goes on to the one after it. After an error it stays the next.
    fn take(&mut self, into: &mut Vec<u8>) -> io::Result<()>
        ensures { OnOk result (vec_len into.new ≤ LINE_CAP) }
    {
        into.clear();
        let mut byte = self.next.byte;
        'parts: for _ in 0..u64::MAX {
            let bytes = self.blocks.rest(byte);
            let end = memchr(b'\n', bytes);
            let part = &bytes[..end.unwrap_or(bytes.len())];
            keep(into, part)?;
            byte = later(byte, part.len());
            if end.is_some() {
                self.next = Mark {
                    line: self.next.line.saturating_add(1),
                    byte: byte.saturating_add(1),
                };
                return Ok(());
            }
            if !self.blocks.refill(byte)? {
                break;
            }
        }
        Err(io::Error::from(ErrorKind::UnexpectedEof))
    }
}

/// How many lines end in the block. The iterator's own `count` looks at each byte, where `next` looks at 32 at a time.
fn ends_in(block: &[u8]) -> usize {
    Iterator::count(memchr_iter(b'\n', block))
}

/// So many bytes or lines later.
fn later(from: u64, by: usize) -> u64 {
    from.saturating_add(by as u64)
}

/// Adds bytes of a line to the buffer, as far as they are kept.
fn keep(into: &mut Vec<u8>, bytes: &[u8]) -> Result<(), AllocError>
    requires { vec_len into.old ≤ LINE_CAP }
    ensures { vec_len into.new ≤ LINE_CAP }
{
    let room = LINE_CAP - into.len();
    let kept = bytes.get(..room).unwrap_or(bytes);
    into.extend_from_slice(kept)
}
