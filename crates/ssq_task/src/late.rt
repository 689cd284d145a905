//! Rows that are late.

ghost use Rattle.std.specs.Prelude.{◌≡◌, IfOk};
ghost use Rattle.ssq_meaning.specs.Times.{is_past};
ghost use Rattle.ssq_task.specs.Reducing.{not_past};
ghost use Rattle.ssq_task.specs.Lists.{joined_vecs};

use crate::lists::joined;
use ssq_meaning::FedRow;
use std::alloc::{AllocError, Global};

/// Whether a time is past at a watermark, both in microseconds since 1970. None is where there is no watermark.
fn is_past(watermark: Option<i64>, time: Option<i64>) -> bool
    ensures { result ≡ is_past watermark time }
{
    match (watermark, time) {
        (Some(watermark), Some(time)) => time <= watermark,
        _ => false,
    }
}

/// Whether a row is late at a watermark.
fn is_late(watermark: Option<i64>, row: &FedRow) -> bool
    ensures { result ≡ is_past watermark row.now.time }
{
    is_past(watermark, row.time())
}

/// Leaves out the rows that are late.
fn leave_late(watermark: Option<i64>, rows: &mut Vec<FedRow>)
    ensures { rows.new.items ≡ not_past watermark rows.old.items }
{
    rows.retain(|row| !is_late(watermark, row));
}

/// The rows of all parts that are not late at the watermark.
pub(crate) fn timely_rows(
    alloc: Global,
    watermark: Option<i64>,
    parts: Vec<Vec<FedRow>>,
) -> Result<Vec<FedRow>, AllocError>
    ensures { IfOk result (λ timely. timely.items ≡ not_past watermark (joined_vecs parts.items)) }
{
    let mut rows = joined(alloc, parts)?;
    leave_late(watermark, &mut rows);
    Ok(rows)
}
