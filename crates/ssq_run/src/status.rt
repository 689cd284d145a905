//! How far the checkpoint of a query has come.

ghost use Rattle.std.specs.Prelude.{◌≡◌, ◌≤◌, ◌^◌, ◌++◌, [], length, All, Some, None, IfOk, IfErr, OnOk};
ghost use Rattle.std.specs.Option.{ForSome};
ghost use Rattle.ssq_time.specs.Time.{IsStampTime};
ghost use Rattle.ssq_outside.specs.History.{files_now};
ghost use Rattle.ssq_plans.specs.Records.{lines, part_line};
ghost use Rattle.ssq_plans.specs.Written.{Adds};
ghost use Rattle.ssq_open.specs.Looking.{begins};
ghost use Rattle.ssq_open.specs.Epochs.{last_ends};
ghost use Rattle.ssq_run.specs.Lines.{last_watermark, status_text};
ghost use Rattle.ssq_run.specs.Looked.{LookEnd};
ghost use Rattle.ssq_run.specs.Stopping.{HasCount, IsPastWords, stop_in};

use crate::faults::stop_of_open;
use crate::stop::Stop;
use ssq_open::{Opened, begins, look};
use ssq_outside::Disk;
use ssq_plans::{Plan, Writer, put_ends};
use ssq_shape::Bound;
use std::alloc::{AllocError, Global};

/// The watermark of the last plan, if there is one.
fn last_watermark(plans: &[Plan]) -> Option<i64>
    requires { All (λ plan. ForSome plan.watermark IsStampTime) plans.now }
    ensures is { result ≡ last_watermark plans.now }
    ensures stamp { ForSome result IsStampTime }
{
    match plans.last() {
        Some(plan) => plan.watermark,
        None => None,
    }
}

/// Adds the line of each part: where the planned epochs end.
fn put_planned(alloc: Global, text: &mut Writer, found: &Opened) -> Result<(), AllocError>
    requires { length found.now.meta.parts ≤ 2 ^ 32 }
    ensures { OnOk result (Adds text.old (lines (λ at part. part_line part) 0 (last_ends (begins found.now.meta.parts) found.now.plans)) text.new) }
{
    match found.plans.as_slice().last() {
        Some(plan) => put_ends(text, plan.ends.as_slice()),
        None => {
            let first = begins(alloc, found.meta.parts.as_slice())?;
            put_ends(text, first.as_slice());
        }
    }
    Ok(())
}

/// What is told of a checkpoint.
fn status_text(alloc: Global, found: &Opened) -> Result<Vec<u8>, AllocError>
    requires marks { All (λ plan. ForSome plan.watermark IsStampTime) found.now.plans }
    requires few { length found.now.meta.parts ≤ 2 ^ 32 }
    ensures { IfOk result (λ text. text.items ≡ status_text found.now) }
{
    let mut text = Writer::new(alloc);
    text.put_number_line(b"partitions ", found.meta.partitions as u64);
    text.put_number_line(b"planned ", found.plans.len() as u64);
    text.put_number_line(b"committed ", found.committed as u64);
    text.put_time_line(b"watermark ", last_watermark(found.plans.as_slice()));
    put_planned(alloc, &mut text, found)?;
    text.into_vec()
}

/// Looks at the checkpoint of a query, and says what there is to tell of it.
pub(crate) fn status<D: Disk>(alloc: Global, disk: &mut D, bound: &Bound) -> Result<Vec<u8>, Stop>
    requires few { length bound.now.streams ≤ 2 }
    ensures told { D.tells → IfOk result (λ told. LookEnd bound.now (files_now (D.history disk.old)) told.items None) }
    ensures stop { D.tells → IfErr result (λ stop. LookEnd bound.now (files_now (D.history disk.old)) [] (Some stop)) }
    ensures only { IsPastWords (stop_in result) }
    ensures same { D.tells → D.history disk.new ≡ D.history disk.old }
    ensures cause { HasCount 0 0 (D.faults disk.old) (D.faults disk.new) 0 0 (stop_in result) }
{
    match look(alloc, disk, bound) {
        Ok(None) => Ok(Vec::from_slice(alloc, b"no checkpoint\n")?),
        Ok(Some(found)) => Ok(status_text(alloc, &found)?),
        Err(fault) => Err(stop_of_open(alloc, bound.streams.as_slice(), fault)?),
    }
}
