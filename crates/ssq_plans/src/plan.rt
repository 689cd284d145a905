//! The record of what an epoch is to read.
ghost use Rattle.std.specs.Prelude.{◌≡◌, ◌++◌, ◌<◌, List, ℕ, IfOk, IfSome, IsSomeAnd, Some, None, codes, decimal, length, if◌then◌else◌, ◌==◌, ◌^◌, ℤ, Option};
ghost use Rattle.std.specs.Option.{ForSome};
ghost use Rattle.ssq_time.specs.Time.{IsStampTime};
ghost use Rattle.ssq_plans.specs.declared.plan.Plan.{Plan as Record};
ghost use Rattle.ssq_plans.specs.Records.{lines, part_line, plan_text, time_or_none, epoch_after, Any, IsPart, IsPlan};
ghost use Rattle.ssq_plans.specs.Written.{Adds};

use crate::fields::{is_all, long_line_after, short_after, short_line_after, time_line_after};
use crate::lines::{Line, put_lines, take_lines};
use crate::part::PartEnd;
use crate::writer::Writer;
use ssq_field::Bytes;
use ssq_value::Sequence;
use std::alloc::{AllocError, Global};

/// What an epoch is to read, from where the epoch before ended.
#[derive(Drop)]
pub struct Plan {
    pub epoch: u32,
    /// The watermark before the epoch, in microseconds since 1970-01-01T00:00:00Z.
    pub watermark: Option<i64>,
    /// The ends of the parts, in the order of the streams in the query and of the parts in their stream.
    pub ends: Sequence<PartEnd>,
}

/// The line of a part's end.
impl Line for PartEnd {
    ghost spelled = { λ at part. part_line part };

    ghost is_written = { Any };

    ghost is_read = { IsPart };

    fn put(&self, at: u64, out: &mut Writer) {
        out.put_number(b"part ", self.stream as u64);
        out.put_number(b" ", self.part as u64);
        out.put_number_line(b" ", self.end);
    }

    fn take(at: u64, text: &[u8]) -> Option<(PartEnd, &[u8])> {
        let (stream, text) = short_after(text, b"part ")?;
        let (part, text) = short_after(text, b" ")?;
        let (end, text) = long_line_after(text, b" ")?;
        Some((PartEnd { stream, part, end }, text))
    }
}

/// Appends the line of each part's end.
pub fn put_ends(out: &mut Writer, ends: &[PartEnd])
    ensures { Adds out.old (lines (λ at part. part_line part) 0 ends.now) out.new }
{
    put_lines(out, ends);
}

/// The text of a plan, whose watermark is none or of the years 0001 to 9999.
pub fn write_plan(alloc: Global, plan: &Plan) -> Result<Bytes, AllocError>
    requires { ForSome plan.now.watermark IsStampTime }
    ensures { IfOk result (λ text. text ≡ plan_text plan.now) }
{
    let mut out = Writer::new(alloc);
    out.put_number_line(b"v1\nplan ", plan.epoch as u64);
    out.put_time_line(b"watermark ", plan.watermark);
    put_ends(&mut out, plan.ends.as_slice());
    out.put(b"end\n");
    out.finish()
}

/// The plan whose text these bytes are. `None` where they are no plan's.
pub fn read_plan(alloc: Global, text: &[u8]) -> Result<Option<Plan>, AllocError>
    ensures found { IfOk result (λ read. IfSome read (λ plan. text.now ≡ plan_text plan)) }
    ensures in_range { IfOk result (λ read. IfSome read IsPlan) }
    // So `None` comes only where no plan has this text.
    ensures each { (plan : Record) → IsPlan plan → text.now ≡ plan_text plan → IfOk result (λ read. read ≡ Some plan) }
{
    let Some((epoch, rest)) = short_line_after(text, b"v1\nplan ") else {
        return Ok(None);
    };
    let Some((watermark, rest)) = time_line_after(rest, b"watermark ") else {
        return Ok(None);
    };
    let (ends, rest) = take_lines(alloc, rest)?;
    if is_all(rest, b"end\n") {
        Ok(Some(Plan {
            epoch,
            watermark,
            ends,
        }))
    } else {
        Ok(None)
    }
}

/// The epoch to plan where that many epochs are planned: their number, as epochs count from 0.
/// `None` exactly at 4294967295, the last number, which is no epoch's.
pub fn next_epoch(planned: u32) -> Option<u32>
    ensures { result ≡ epoch_after planned }
{
    if planned == u32::MAX {
        None
    } else {
        Some(planned)
    }
}
