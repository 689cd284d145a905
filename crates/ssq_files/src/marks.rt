//! Where lines of a file begin, to go back to.

use std::alloc::{AllocError, Global};

/// Where a line begins in a file.
#[derive(Clone, Copy)]
pub(crate) struct Mark {
    /// How many lines are before it.
    pub(crate) line: u64,
    /// How many bytes are before it.
    pub(crate) byte: u64,
}

impl Mark {
    /// The begin of the file.
    pub(crate) const START: Mark = Mark { line: 0, byte: 0 };
}

/// How many marks are kept.
const MARKS: usize = 512;

/// Some of the marks that were passed, in order and about equally far apart.
///
/// However long the file is, they take the same room, which is had from the start.
#[derive(Drop)]
pub(crate) struct Marks {
    marks: Vec<Mark>,
    /// The bytes from one to the next, at least.
    gap: u64,
}

impl Marks {
    /// No marks.
    pub(crate) fn new(alloc: Global) -> Result<Marks, AllocError> {
        Ok(Marks {
            marks: Vec::with_capacity(alloc, MARKS)?,
            gap: 262_144,
        })
    }

    /// Keeps a mark that comes after those that are kept, where it is far enough from them.
    pub(crate) fn pass(&mut self, mark: Mark) {
        let last = self.marks.last().copied().unwrap_or(Mark::START);
        if mark.byte.saturating_sub(last.byte) < self.gap {
            return;
        }
        if self.marks.len() >= MARKS {
            self.thin();
        }
        let _ = self.marks.push(mark);
    }

    /// The last mark of this line or of one before it.
    pub(crate) fn before(&self, line: u64) -> Mark {
        let found = self.marks.iter().rev().find(|mark| mark.line <= line);
        found.copied().unwrap_or(Mark::START)
    }

    /// Keeps every second mark, and leaves twice the gap from now on.
    fn thin(&mut self) {
        let half = self.marks.len() / 2;
        for i in 0..half {
            self.marks[i] = self.marks[2 * i];
        }
        self.marks.truncate(half);
        self.gap = self.gap.saturating_mul(2);
    }
}
