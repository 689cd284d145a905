//! The step of an epoch.

ghost use Rattle.std.specs.Prelude.{◌≡◌, [], ℤ, List, Option, All, FitsSigned, IfOk, IfErr, IfSome};
ghost use Rattle.std.specs.Int.{w64};
ghost use Rattle.ssq_meaning.specs.FedRows.{FedRow as Fed};
ghost use Rattle.ssq_meaning.specs.Fit.{IsFitRow};
ghost use Rattle.ssq_meaning.specs.Operator.{join};
ghost use Rattle.ssq_shape.specs.declared.bound.Joining.{Joining as Joins};
ghost use Rattle.ssq_step.specs.Shown.{ArePrintable};
ghost use Rattle.ssq_step.specs.Steps.{IsCause, IsStep};
ghost use Rattle.ssq_join.specs.Steps.{Given, KeepsStreams};

use crate::changed::changed;
use crate::over::take_all_over;
use crate::taking::{Taken, take_rows};
use ssq_meaning::{FedRow, joined_rows_are_told_by_what_is_kept, kept_rows_are_listed};
use ssq_shape::{Bound, Joining, Shape};
use ssq_step::{Closing, StepFault, Stepped};
use ssq_value::keys_are_apart;
use ssq_version::{Change, StateMap};
use std::alloc::{AllocError, Global};

fn time_fits(time: i64)
    ensures { FitsSigned w64 time }
{}

/// Each watermark is a number of 64 bits.
fn watermark_fits(now: Option<i64>)
    ensures { IfSome now (FitsSigned w64) }
{
    if let Some(now) = now {
        time_fits(now);
    }
}

/// The step of a join.
fn step_rows(
    alloc: Global,
    bound: &Bound,
    joining: &Joining,
    state: &StateMap,
    closing: &Closing,
    rows: &[FedRow],
    now: Option<i64>,
) -> Result<Stepped, StepFault>
    requires { All IsFitRow rows.now }
    ensures stepped { (old : List Fed) (before : Option ℤ) → Given bound.now joining.now state.now closing.now old rows.now before now →
        IfOk result (IsStep (join bound.now joining.now) state.now old rows.now before now) }
    ensures cause { (old : List Fed) (before : Option ℤ) → Given bound.now joining.now state.now closing.now old rows.now before now →
        IfErr result (IsCause (join bound.now joining.now) old rows.now before now) }
    ensures printable { IfOk result (λ stepped. ArePrintable stepped.rows.items) }
{
    keys_are_apart();
    watermark_fits(now);
    kept_rows_are_listed();
    joined_rows_are_told_by_what_is_kept();
    let over = closing.past(alloc, now)?;
    let keys = over.as_slice();
    let mut taken = take_rows(alloc, bound, joining, state, rows)?;
    take_all_over(alloc, bound, joining, state, keys, &mut taken.found)?;
    let Taken { found, met, fresh } = taken;
    let rows = found.into_rows()?;
    let change = changed(alloc, state, fresh, &met, keys)?;
    Ok(Stepped { change, rows })
}

/// The step of an epoch over the rows that a partition of a join keeps and their index by time: by the epoch's rows that are not late, and its
/// watermark, in microseconds since 1970, what changes in what is kept, and which rows are shown. Of a query that does not join nothing changes,
/// and nothing is shown.
///
/// Each new row is paired with the rows of the other side that have its join key, those that are kept and those of the epoch before it; no
/// other row is read but those that are over.
pub fn step(
    alloc: Global,
    bound: &Bound,
    state: &StateMap,
    closing: &Closing,
    rows: &[FedRow],
    _epoch: u32,
    watermark: Option<i64>,
) -> Result<Stepped, StepFault>
    requires { All IsFitRow rows.now }
    // The change leads from the state over the rows before to that over these rows too, the rows that are shown are the epoch's, as a bag, and
    // no key overflows.
    ensures stepped { (joining : Joins) (old : List Fed) (before : Option ℤ) → Given bound.now joining state.now closing.now old rows.now before watermark →
        IfOk result (IsStep (join bound.now joining) state.now old rows.now before watermark) }
    // It fails on the least key on which the epoch overflows, or where memory ran out.
    ensures cause { (joining : Joins) (old : List Fed) (before : Option ℤ) → Given bound.now joining state.now closing.now old rows.now before watermark →
        IfErr result (IsCause (join bound.now joining) old rows.now before watermark) }
    // Whatever the state holds, each time that is shown can be printed.
    ensures printable { IfOk result (λ stepped. ArePrintable stepped.rows.items) }
    ensures separate { KeepsStreams bound.now.shape → IfOk result (λ stepped. (stepped.change ≡ []) × (stepped.rows.items ≡ [])) }
{
    match &bound.shape {
        Shape::Join(joining) => step_rows(alloc, bound, joining, state, closing, rows, watermark),
        _ => Ok(Stepped {
            change: Change::new(alloc),
            rows: Vec::new(alloc),
        }),
    }
}
