//! The version that an epoch makes of what a partition keeps.

ghost use Rattle.std.specs.Prelude.{◌≡◌, ◌<◌, ◌++◌, ◌^◌, ℕ, ℤ, List, Option, Some, All, IfOk, IfErr, OnOk, OnErr};
ghost use Rattle.ssq_time.specs.Time.{IsStampTime};
ghost use Rattle.ssq_value.specs.Kind.{IfTime};
ghost use Rattle.ssq_meaning.specs.FedRows.{FedRow as Fed};
ghost use Rattle.ssq_meaning.specs.Epochs.{timely};
ghost use Rattle.ssq_meaning.specs.Fit.{IsFitRow};
ghost use Rattle.ssq_meaning.specs.Windows.{HasWindows};
ghost use Rattle.ssq_step.specs.Indexing.{IsIndex};
ghost use Rattle.ssq_step.specs.Steps.{IsCause, IsStep};
ghost use Rattle.ssq_meaning.specs.Operator.{operator_of};
ghost use Rattle.ssq_task.specs.Stepping.{CanStep};
ghost use Rattle.ssq_version.specs.State.{State as Kept, Ascends, IsAfter, between};
ghost use Rattle.ssq_version.specs.Text.{delta_text};
ghost use Rattle.ssq_store.specs.Loaded.{count_to};
ghost use Rattle.ssq_task.specs.Reducing.{HasBrought, HasFailed, IsStageAfter, fault_of_seal};
ghost use Rattle.ssq_task.specs.Lists.{joined_vecs};

use crate::late::timely_rows;
use crate::partition::{Held, ReduceFault, ReducedRows, State};
use crate::step::step_operator;
use ssq_meaning::{FedRow, kept_keys_ascend};
use ssq_outside::Stage;
use ssq_shape::Bound;
use ssq_step::{StepFault, Stepped};
use ssq_store::SealFault;
use ssq_version::{
    Change, changes_are_kept, states_are_kept, states_have_a_change, versions_are_one,
};
use std::alloc::{AllocError, Global};

/// Steps the operator over the rows that are not late.
fn step_rows(
    alloc: Global,
    bound: &Bound,
    held: &Held,
    parts: Vec<Vec<FedRow>>,
    epoch: u32,
    watermark: Option<i64>,
) -> Result<Stepped, StepFault>
    requires { All IsFitRow (joined_vecs parts.items) }
    ensures stepped { (old : List Fed) (before : Option ℤ) →
        CanStep bound.now held.now.store.state held.now.closing old (timely bound.now watermark (joined_vecs parts.items)) before watermark →
        IfOk result (IsStep (operator_of bound.now) held.now.store.state old (timely bound.now watermark (joined_vecs parts.items)) before watermark) }
    ensures cause { (old : List Fed) (before : Option ℤ) →
        CanStep bound.now held.now.store.state held.now.closing old (timely bound.now watermark (joined_vecs parts.items)) before watermark →
        IfErr result (IsCause (operator_of bound.now) old (timely bound.now watermark (joined_vecs parts.items)) before watermark) }
    ensures printable { IfOk result (λ stepped. All (All (IfTime IsStampTime)) stepped.rows.items) }
{
    let rows = timely_rows(alloc, watermark, parts)?;
    step_operator(alloc, bound, held, rows.as_slice(), epoch, watermark)
}

/// Takes what a partition keeps to the next version by a change, and first the index beside it. After an `Err` the store is as it was, and the
/// index is of no use.
fn advance(alloc: Global, bound: &Bound, held: &mut Held, change: Change) -> Result<(), AllocError>
    requires windows { HasWindows bound.now }
    requires version { count_to held.old.store.version < 2 ^ 32 }
    ensures state { (after : Kept) → Ascends after → IsAfter change held.old.store.state after → OnOk result (held.new.store.state ≡ after) }
    ensures version { OnOk result (held.new.store.version ≡ Some (count_to held.old.store.version)) }
    ensures index { IsIndex bound.now held.old.store.state held.old.closing → OnOk result (IsIndex bound.now held.new.store.state held.new.closing) }
    ensures partition { held.new.store.partition ≡ held.old.store.partition }
    ensures same { OnErr result ((held.new.store.version ≡ held.old.store.version) × (held.new.store.state ≡ held.old.store.state)) }
{
    versions_are_one();
    changes_are_kept(&change);
    held.closing.follow(bound, &held.store.state, &change)?;
    held.store.advance(change)?;
    states_are_kept(&held.store.state);
    Ok(())
}

/// Seals the change as the delta of the version after the store's, and then takes what the partition keeps to that version. After a fault the
/// store is as it was, and the index beside it is of no use.
fn seal_and_advance<S: Stage>(
    alloc: Global,
    bound: &Bound,
    held: &mut Held,
    stage: S,
    change: Change,
) -> Result<S::Sealed, (SealFault, Option<S>)>
    requires windows { HasWindows bound.now }
    requires version { count_to held.old.store.version < 2 ^ 32 }
    ensures sealed { S.tells → (after : Kept) → Ascends after → IsAfter change held.old.store.state after → IfOk result (λ file. S.sealed file
        ≡ S.written stage ++ delta_text held.old.store.partition (count_to held.old.store.version) (between held.old.store.state after)) }
    ensures state { (after : Kept) → Ascends after → IsAfter change held.old.store.state after → OnOk result (held.new.store.state ≡ after) }
    ensures version { OnOk result (held.new.store.version ≡ Some (count_to held.old.store.version)) }
    ensures index { IsIndex bound.now held.old.store.state held.old.closing → OnOk result (IsIndex bound.now held.new.store.state held.new.closing) }
    ensures partition { held.new.store.partition ≡ held.old.store.partition }
    ensures same { OnErr result ((held.new.store.version ≡ held.old.store.version) × (held.new.store.state ≡ held.old.store.state)) }
    ensures aside { IfErr result (λ failed. IsStageAfter S.faults (fault_of_seal failed.0) stage failed.1) }
{
    versions_are_one();
    states_have_a_change();
    changes_are_kept(&change);
    let file = match held.store.seal(&change, stage) {
        Ok(file) => file,
        Err((stage, fault)) => return Err((fault, Some(stage))),
    };
    match advance(alloc, bound, held, change) {
        Ok(()) => Ok(file),
        Err(_) => Err((SealFault::NoMemory, None)),
    }
}

/// Steps the operator over the rows that are not late, and takes what the partition keeps to the epoch's version, which is the one after the
/// store's.
pub(crate) fn next_version<S: Stage>(
    alloc: Global,
    bound: &Bound,
    epoch: u32,
    watermark: Option<i64>,
    parts: Vec<Vec<FedRow>>,
    state: State<S>,
) -> (
    Held,
    Result<ReducedRows<S::Sealed>, (ReduceFault, Option<S>)>,
)
    requires windows { HasWindows bound.now }
    requires fit { All IsFitRow (joined_vecs parts.items) }
    requires version { count_to state.held.store.version ≡ epoch }
    ensures partition { result.0.store.partition ≡ state.held.store.partition }
    ensures brought { (partition : ℕ) → IfOk result.1
        (HasBrought S.tells S.written S.sealed bound.now epoch partition watermark (timely bound.now watermark (joined_vecs parts.items)) (Some state) (Some result.0)) }
    ensures failed { (partition : ℕ) → IfErr result.1
        (HasFailed S.faults bound.now partition watermark (timely bound.now watermark (joined_vecs parts.items)) (Some state) (Some result.0)) }
{
    kept_keys_ascend();
    let State { mut held, stage } = state;
    let outcome = match step_rows(alloc, bound, &held, parts, epoch, watermark) {
        Ok(Stepped { change, rows }) => {
            match seal_and_advance(alloc, bound, &mut held, stage, change) {
                Ok(delta) => Ok(ReducedRows {
                    rows,
                    delta: Some(delta),
                }),
                Err((fault, stage)) => Err((ReduceFault::from(fault), stage)),
            }
        }
        Err(fault) => Err((ReduceFault::from(fault), Some(stage))),
    };
    (held, outcome)
}
