//! The record of what was read by the end of an epoch.
ghost use Rattle.std.specs.Prelude.{◌≡◌, ◌++◌, All, IfOk, IfSome, Some};
ghost use Rattle.ssq_plans.specs.declared.commit.Commit.{Commit as Record};
ghost use Rattle.ssq_plans.specs.Records.{HasLineTime, IsCommit, commit_text};

use crate::fields::{is_all, short_line_after};
use crate::lines::{put_lines, take_lines};
use crate::seen::SeenBy;
use crate::writer::Writer;
use ssq_field::Bytes;
use ssq_value::Sequence;
use std::alloc::{AllocError, Global};

/// What was read by the end of an epoch.
#[derive(Drop)]
pub struct Commit {
    pub epoch: u32,
    /// The watermarked streams in the query's order.
    pub seen: Sequence<SeenBy>,
}

/// The text of a commit, whose times are none or of the years 1000 to 9000.
pub fn write_commit(alloc: Global, commit: &Commit) -> Result<Bytes, AllocError>
    requires { All HasLineTime commit.now.seen }
    ensures { IfOk result (λ text. text ≡ commit_text commit.now) }
{
    let mut out = Writer::new(alloc);
    out.put_number_line(b"v1\ncommit ", commit.epoch as u64);
    put_lines(&mut out, commit.seen.as_slice());
    out.put(b"end\n");
    out.finish()
}

/// The commit whose text these bytes are. `None` where they are no commit's.
pub fn read_commit(alloc: Global, text: &[u8]) -> Result<Option<Commit>, AllocError>
    ensures found { IfOk result (λ read. IfSome read (λ commit. text.now ≡ commit_text commit)) }
    ensures in_range { IfOk result (λ read. IfSome read IsCommit) }
    // So `None` comes only where no commit has this text.
    ensures each { (commit : Record) → IsCommit commit → text.now ≡ commit_text commit → IfOk result (λ read. read ≡ Some commit) }
{
    let Some((epoch, rest)) = short_line_after(text, b"v1\ncommit ") else {
        return Ok(None);
    };
    let (seen, rest) = take_lines(alloc, rest)?;
    if is_all(rest, b"end\n") {
        Ok(Some(Commit { epoch, seen }))
    } else {
        Ok(None)
    }
}
