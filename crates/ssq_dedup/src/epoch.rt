//! The step of an epoch.

ghost use Rattle.std.specs.Prelude.{◌≡◌, ◌||◌, [], ℕ, ℤ, Bool, List, Option, All, is_some, not, IfOk, IfErr, OnOk};
ghost use Rattle.std.specs.HashSet.{contains};
ghost use Rattle.ssq_value.specs.declared.value.Value.{Value as Cell};
ghost use Rattle.ssq_time.specs.Time.{IsStampTime};
ghost use Rattle.ssq_value.specs.Kind.{IfTime};
ghost use Rattle.ssq_shape.specs.declared.bound.Bound.{Bound as Query};
ghost use Rattle.ssq_meaning.specs.FedRows.{FedRow as Fed};
ghost use Rattle.ssq_meaning.specs.Dedup.{values_in};
ghost use Rattle.ssq_meaning.specs.Fit.{IsFitRow};
ghost use Rattle.ssq_meaning.specs.Group.{is_same};
ghost use Rattle.ssq_meaning.specs.Operator.{dedup};
ghost use Rattle.ssq_version.specs.State.{value_at};
ghost use Rattle.ssq_step.specs.Steps.{IsStep};
ghost use Rattle.ssq_step.specs.declared.fault.StepFault.TheVariants.{NoMemory};
ghost use Rattle.ssq_dedup.specs.Firsts.{HoldsKeys, IsKeyed, SaysFirsts, Takes, first_among};
ghost use Rattle.ssq_dedup.specs.Steps.{Given, KeepsRepeats};

use ssq_field::Bytes;
use ssq_meaning::{FedRow, first_rows_are_told_by_what_is_kept, kept_keys_are_found};
use ssq_shape::{Bound, Shape};
use ssq_step::{Closing, Key, StepFault, Stepped, bytes_of_key, copied_row, forget};
use ssq_value::{Row, Value, keys_are_apart};
use ssq_version::{Change, Draft, StateMap};
use std::alloc::{AllocError, Global};
use std::collections::HashSet;

fn is_kept(state: &StateMap, key: &Bytes) -> bool
    ensures { result ≡ is_some (value_at state.now key.now) }
{
    state.get(key).is_some()
}

/// Puts the key among those of the rows, and tells whether no row before has it.
fn note_key<'a>(keys: &mut HashSet<Key<'a>>, key: &'a [Value]) -> Result<bool, AllocError>
    ensures keys { OnOk result ((other : List Cell) → contains is_same keys.new other ≡ (is_same key.now other || contains is_same keys.old other)) }
    ensures is_new { IfOk result (λ is_new. is_new ≡ not (contains is_same keys.old key.now)) }
{
    let is_new = keys.insert(Key::of(key))?;
    Ok(is_new)
}

/// Takes one more row: where no row before has its key, and the state does not keep it, the row is shown, and its key is kept from now on.
fn take_row<'a>(
    alloc: Global,
    state: &StateMap,
    keys: &mut HashSet<Key<'a>>,
    draft: &mut Draft,
    shown: &mut Vec<Row>,
    row: &'a FedRow,
) -> Result<(), AllocError>
    requires { IsFitRow row.now }
    ensures keys { OnOk result ((key : List Cell) → contains is_same keys.new key ≡ (is_same row.now.key key || contains is_same keys.old key)) }
    ensures taken { OnOk result (Takes state.now row.now (contains is_same keys.old row.now.key) draft.old draft.new shown.old.items shown.new.items) }
{
    let is_new = note_key(keys, row.key())?;
    if !is_new {
        return Ok(());
    }
    let key = bytes_of_key(alloc, row.key())?;
    if is_kept(state, &key) {
        return Ok(());
    }
    draft.put(key, Bytes::new(alloc))?;
    shown.push(copied_row(alloc, row.values())?)?;
    Ok(())
}

/// The rows that are no repeats. The draft says of their keys that they are kept from now on. The state is asked once for each key.
fn first_rows(
    alloc: Global,
    state: &StateMap,
    draft: &mut Draft,
    rows: &[FedRow],
) -> Result<Vec<Row>, AllocError>
    requires { All IsFitRow rows.now }
    ensures says { (count : ℕ) (is_held : List Cell → Bool) → HoldsKeys count state.now is_held → All (IsKeyed count) rows.now →
        OnOk result (SaysFirsts count is_held rows.now draft.old draft.new) }
    ensures rows { (count : ℕ) (is_held : List Cell → Bool) → HoldsKeys count state.now is_held → All (IsKeyed count) rows.now →
        IfOk result (λ shown. shown.items ≡ values_in (first_among is_held [] rows.now)) }
    ensures printable { IfOk result (λ shown. All (All (IfTime IsStampTime)) shown.items) }
{
    keys_are_apart();
    let mut keys = HashSet::with_capacity(alloc, rows.len())?;
    let mut shown = Vec::new(alloc);
    for row in rows {
        take_row(alloc, state, &mut keys, draft, &mut shown, row)?;
    }
    Ok(shown)
}

/// The step of a query that deduplicates.
fn step_rows(
    alloc: Global,
    state: &StateMap,
    closing: &Closing,
    rows: &[FedRow],
    now: Option<i64>,
) -> Result<Stepped, StepFault>
    requires { All IsFitRow rows.now }
    ensures stepped { (query : Query) (columns : List ℕ) (old : List Fed) (before : Option ℤ) → Given query columns state.now closing.now old rows.now before now →
        IfOk result (IsStep (dedup query columns) state.now old rows.now before now) }
    ensures cause { IfErr result (λ fault. fault ≡ NoMemory) }
    ensures printable { IfOk result (λ stepped. All (All (IfTime IsStampTime)) stepped.rows.items) }
{
    kept_keys_are_found();
    first_rows_are_told_by_what_is_kept();
    let keys = closing.past(alloc, now)?;
    let mut draft = Draft::new(alloc);
    let rows = first_rows(alloc, state, &mut draft, rows)?;
    forget(&mut draft, keys.as_slice())?;
    let change = draft.into_change(alloc)?;
    Ok(Stepped { change, rows })
}

/// The step of an epoch over the state of a partition and the index of its keys by time: by the epoch's rows that are not late, and its
/// watermark, in microseconds since 1970, what changes in the state, and which rows are shown. Of a query that does not deduplicate nothing
/// changes, and nothing is shown.
///
/// A row is shown where its key is neither kept nor that of a row before it. The state is asked once for each key of the rows; no other key is
/// read but those that are forgotten.
pub fn step(
    alloc: Global,
    bound: &Bound,
    state: &StateMap,
    closing: &Closing,
    rows: &[FedRow],
    _epoch: u32,
    watermark: Option<i64>,
) -> Result<Stepped, StepFault>
    requires { All IsFitRow rows.now }
    // The change leads from the state over the rows before to that over these rows too, and the rows that are shown are the epoch's, as a bag.
    ensures stepped { (columns : List ℕ) (old : List Fed) (before : Option ℤ) → Given bound.now columns state.now closing.now old rows.now before watermark →
        IfOk result (IsStep (dedup bound.now columns) state.now old rows.now before watermark) }
    // It fails only where memory ran out.
    ensures cause { IfErr result (λ fault. fault ≡ NoMemory) }
    // Whatever the state holds, each time that is shown can be printed.
    ensures printable { IfOk result (λ stepped. All (All (IfTime IsStampTime)) stepped.rows.items) }
    ensures repeated { KeepsRepeats bound.now.shape → IfOk result (λ stepped. (stepped.change ≡ []) × (stepped.rows.items ≡ [])) }
{
    match &bound.shape {
        Shape::Dedup(_) => step_rows(alloc, state, closing, rows, watermark),
        _ => Ok(Stepped {
            change: Change::new(alloc),
            rows: Vec::new(alloc),
        }),
    }
}
