//! The step of a query's operator.

ghost use Rattle.std.specs.Prelude.{ℤ, List, Option, All, IfOk, IfErr};
ghost use Rattle.ssq_time.specs.Time.{IsStampTime};
ghost use Rattle.ssq_value.specs.Kind.{IfTime};
ghost use Rattle.ssq_meaning.specs.FedRows.{FedRow as Fed};
ghost use Rattle.ssq_meaning.specs.Fit.{IsFitRow};
ghost use Rattle.ssq_meaning.specs.Operator.{operator_of};
ghost use Rattle.ssq_step.specs.Steps.{IsCause, IsStep};
ghost use Rattle.ssq_task.specs.Stepping.{CanStep};

use crate::partition::Held;
use ssq_meaning::FedRow;
use ssq_shape::{Bound, Shape};
use ssq_step::{StepFault, Stepped};
use ssq_version::Change;
use std::alloc::Global;

/// Steps the operator of the query over an epoch's rows that are not late. That of a query that keeps nothing changes and shows nothing.
pub(crate) fn step_operator(
    alloc: Global,
    bound: &Bound,
    held: &Held,
    rows: &[FedRow],
    epoch: u32,
    watermark: Option<i64>,
) -> Result<Stepped, StepFault>
    requires { All IsFitRow rows.now }
    ensures stepped { (old : List Fed) (before : Option ℤ) → CanStep bound.now held.now.store.state held.now.closing old rows.now before watermark →
        IfOk result (IsStep (operator_of bound.now) held.now.store.state old rows.now before watermark) }
    ensures cause { (old : List Fed) (before : Option ℤ) → CanStep bound.now held.now.store.state held.now.closing old rows.now before watermark →
        IfErr result (IsCause (operator_of bound.now) old rows.now before watermark) }
    ensures printable { IfOk result (λ stepped. All (All (IfTime IsStampTime)) stepped.rows.items) }
{
    match &bound.shape {
        Shape::Group(_) => ssq_agg::step(
            alloc,
            bound,
            &held.store.state,
            &held.closing,
            rows,
            epoch,
            watermark,
        ),
        Shape::Dedup(_) => ssq_dedup::step(
            alloc,
            bound,
            &held.store.state,
            &held.closing,
            rows,
            epoch,
            watermark,
        ),
        Shape::Join(_) => ssq_join::step(
            alloc,
            bound,
            &held.store.state,
            &held.closing,
            rows,
            epoch,
            watermark,
        ),
        Shape::Plain => Ok(Stepped {
            change: Change::new(alloc),
            rows: Vec::new(alloc),
        }),
    }
}
