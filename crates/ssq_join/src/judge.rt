//! What is evaluated on joined rows.

ghost use Rattle.std.specs.Prelude.{◌≡◌, ◌∷◌, List, All, IfOk, OnOk};
ghost use Rattle.ssq_shape.specs.Evaluation.{truth_in};
ghost use Rattle.ssq_shape.specs.Plain.{shown};
ghost use Rattle.ssq_expr.specs.Answers.{Answers, itself};
ghost use Rattle.ssq_meaning.specs.Fit.{IsFit};
ghost use Rattle.ssq_meaning.specs.Join.{Considered as Told};
ghost use Rattle.ssq_step.specs.Shown.{ArePrintable};
ghost use Rattle.ssq_join.specs.Judging.{are_true, is_met, judged_row};
ghost use Rattle.ssq_join.specs.Telling.{Tells};

use ssq_expr::{EvalFault, eval, show};
use ssq_shape::{Bound, Joining, Typed};
use ssq_step::Shown;
use ssq_value::Value;
use std::alloc::{AllocError, Global};

fn truth_in(value: &Value) -> Option<bool>
    ensures { result ≡ truth_in value.now }
{
    match value {
        Value::Truth(truth) => Some(*truth),
        _ => None,
    }
}

/// Whether all of some conditions are TRUE, evaluated from the left; none is evaluated after a FALSE.
#[tactic(auto, unfolding(ssq_meaning::specs::Join::all_of))]
fn are_true(alloc: Global, conditions: &[Typed], row: &[Value]) -> Result<bool, EvalFault>
    ensures { Answers itself result (are_true conditions.now row.now) }
{
    let Some((condition, conditions)) = conditions.split_first() else {
        return Ok(true);
    };
    let first = truth_in(&eval(alloc, condition, row)?);
    match first {
        Some(true) => are_true(alloc, conditions, row),
        Some(false) => Ok(false),
        None => {
            // What overflows after a NULL is told.
            are_true(alloc, conditions, row)?;
            Ok(false)
        }
    }
}

/// Takes in what is shown of a joined row, for a key: WHERE is evaluated, and where it is TRUE the items of SELECT.
pub(crate) fn show_row(
    alloc: Global,
    bound: &Bound,
    key: &[Value],
    row: &[Value],
    found: &mut Shown,
) -> Result<(), AllocError>
    requires fit { All IsFit row.now }
    requires printable { ArePrintable found.old.rows.items }
    ensures told { (all : List Told) → Tells found.old all → OnOk result (Tells found.new (record { key = key.now; row = shown bound.now row.now } ∷ all)) }
    ensures printable { OnOk result (ArePrintable found.new.rows.items) }
{
    match show(alloc, bound, row) {
        Ok(Some(shown)) => found.add_row(shown),
        Ok(None) => Ok(()),
        Err(EvalFault::Overflow) => found.add_fault(alloc, key),
        Err(EvalFault::NoMemory) => Err(AllocError),
    }
}

/// Takes in what a candidate comes to, for a key, by its joined row: the rest of ON is evaluated, where it is TRUE WHERE, and where that is TRUE
/// the items of SELECT. Tells whether ON is TRUE.
pub(crate) fn judge(
    alloc: Global,
    bound: &Bound,
    joining: &Joining,
    key: &[Value],
    row: &[Value],
    found: &mut Shown,
) -> Result<bool, AllocError>
    requires fit { All IsFit row.now }
    requires printable { ArePrintable found.old.rows.items }
    ensures met { IfOk result (λ met. met ≡ is_met joining.now row.now) }
    ensures told { (all : List Told) → Tells found.old all → OnOk result (Tells found.new (record { key = key.now; row = judged_row bound.now joining.now row.now } ∷ all)) }
    ensures printable { OnOk result (ArePrintable found.new.rows.items) }
{
    match are_true(alloc, joining.rest.as_slice(), row) {
        Ok(true) => {
            show_row(alloc, bound, key, row, found)?;
            Ok(true)
        }
        Ok(false) => Ok(false),
        Err(EvalFault::Overflow) => {
            found.add_fault(alloc, key)?;
            Ok(false)
        }
        Err(EvalFault::NoMemory) => Err(AllocError),
    }
}
