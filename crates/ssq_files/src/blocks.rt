//! A file that is read in blocks.

ghost use Rattle.std.specs.Prelude.{◌≤◌, vec_len};
ghost use Rattle.std.specs.Io.{ReadsAtMost};

use std::alloc::{AllocError, Global};
use std::io;
use std::io::{ErrorKind, Read, Seek, SeekFrom};

/// The bytes that are read at once.
const BLOCK: usize = 262_144;

/// A file, and the block of it that was read last.
#[derive(Drop)]
pub(crate) struct Blocks<F> {
    file: F,
    /// Where in the file the block begins.
    start: u64,
    bytes: Vec<u8>,
    /// How many of the buffer's bytes are the block's.
    len: usize,
    ghost in_bounds: { len ≤ vec_len bytes },
}

impl<F: Read + Seek + Drop> Blocks<F> {
    /// Nothing is read yet.
    pub(crate) fn new(alloc: Global, file: F) -> Result<Blocks<F>, AllocError> {
        Ok(Blocks {
            file,
            start: 0,
            bytes: vec![in alloc; 0u8; BLOCK]?,
            len: 0,
        })
    }

    /// Reads the block from this byte on, in place of the one before. `false`: the file ends there, and the one before stays.
    pub(crate) fn refill(&mut self, byte: u64) -> io::Result<bool> {
        self.file.seek(SeekFrom::Start(byte))?;
        match read_some(&mut self.file, &mut self.bytes) {
            Ok(0) => Ok(false),
            Ok(count) => {
                self.start = byte;
                self.len = count;
                Ok(true)
            }
            Err(e) => {
                self.len = 0;
                Err(e)
            }
        }
    }

    /// What the block has from this byte on.
    #[inline]
    pub(crate) fn rest(&self, byte: u64) -> &[u8] {
        let bytes = &self.bytes[..self.len];
        match byte.checked_sub(self.start) {
            Some(skipped) => bytes.get(skipped as usize..).unwrap_or_default(),
            None => &[],
        }
    }
}

/// Reads once, again after an interrupt. It gives 0 at the end of the file.
pub(crate) fn read_some(file: &mut impl Read, into: &mut [u8]) -> io::Result<usize>
    ensures { ReadsAtMost result into.new }
{
    for _ in 0..u64::MAX {
        match file.read(into) {
            Ok(count) => return Ok(count),
            Err(e) => match e.kind() {
                ErrorKind::Interrupted => {}
                _ => return Err(e),
            },
        }
    }
    Err(io::Error::from(ErrorKind::Interrupted))
}
