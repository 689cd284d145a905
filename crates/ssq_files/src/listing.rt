//! The names in a folder.

ghost use Rattle.std.specs.Prelude.{◌≤◌};

use crate::blocks::read_some;
use memchr::memchr;
use std::io::Read;
use std::{io, str};

/// The room for names that are read at once, which any one has room in.
const ROOM: usize = 4096;

/// The names in a folder, one after the other.
///
/// A folder reads as its names, each ended by a NUL, and no read ends inside a name.
#[derive(Drop)]
pub(crate) struct Listing<D> {
    /// `None`: the folder is not there, and has no names.
    dir: Option<D>,
    buffer: [u8; ROOM],
    /// Where in the buffer the name stands that was come to last.
    start: usize,
    end: usize,
    /// How much of the buffer was read.
    filled: usize,
    ghost ordered: { start ≤ end },
    ghost in_read: { end ≤ filled },
    ghost in_bounds: { filled ≤ 4096 },
}

impl<D: Read + Drop> Listing<D> {
    /// Before the first name of an open folder.
    pub(crate) fn new(dir: Option<D>) -> Listing<D> {
        Listing {
            dir,
            buffer: [0; ROOM],
            start: 0,
            end: 0,
            filled: 0,
        }
    }

    /// Goes on to the next name. `false`: there is none left.
    pub(crate) fn advance(&mut self) -> io::Result<bool> {
        let mut start = self.end + 1;
        if self.filled <= start {
            start = 0;
            self.read()?;
        }
        if self.filled == 0 {
            return Ok(false);
        }
        let names = &self.buffer[start..self.filled];
        let len = memchr(0, names).unwrap_or(names.len());
        self.start = start;
        self.end = start + len;
        Ok(true)
    }

    /// Reads the next names, in place of those that were read. At the end there are none.
    fn read(&mut self) -> io::Result<()> {
        self.start = 0;
        self.end = 0;
        self.filled = 0;
        if let Some(dir) = &mut self.dir {
            self.filled = read_some(dir, &mut self.buffer)?;
        }
        Ok(())
    }

    /// The name that was come to last. One that is no text is shown as an empty one, which no file has.
    pub(crate) fn name(&self) -> &str {
        str::from_utf8(&self.buffer[self.start..self.end]).unwrap_or("")
    }
}
