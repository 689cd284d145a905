//! What a state keeps, by its times.

ghost use Rattle.std.specs.Prelude.{◌≡◌, None, Some, false, List, ℕ, IfOk, OnOk, option_copied};
ghost use Rattle.ssq_value.specs.declared.value.Value.{Value as Cell};
ghost use Rattle.ssq_value.specs.Key.{keys_of};
ghost use Rattle.ssq_version.specs.State.{IsAfter, State as Kept};
ghost use Rattle.ssq_meaning.specs.Keyed.{key_length, key_time};
ghost use Rattle.ssq_meaning.specs.Windows.{HasWindows};
ghost use Rattle.ssq_step.specs.Indexing.{IsIndex, IsKeyBy, IsReadableKey, IsTimeIf};
ghost use Rattle.ssq_step.specs.Rows.{TurnsAt};

use crate::rows::row_time;
use ssq_field::Bytes;
use ssq_keys::time_at;
use ssq_meaning::{key_length, key_place, keys_have_times};
use ssq_shape::{Bound, Shape};
use ssq_version::{Change, StateMap, changes_are_kept, states_are_kept};
use std::alloc::{AllocError, Global};
use std::collections::BTreeSet;

/// The time of the key that has these bytes; none where they are no key's, or it stays open.
fn time_of(bound: &Bound, key: &[u8]) -> Option<i64>
    requires { HasWindows bound.now }
    ensures { (own : List Cell) → IsReadableKey (key_length bound.now) own → keys_of own ≡ key.now → result ≡ key_time bound.now own }
{
    let place = key_place(bound)?;
    let own = time_at(key, key_length(bound), place.at())?;
    Some(place.time(own))
}

/// The time of what is kept under these bytes: of a row of a join that at which it is over, of anything else that of its key.
fn entry_time(bound: &Bound, key: &Bytes, value: &Bytes) -> Option<i64>
    requires { HasWindows bound.now }
    ensures { (is : IsKeyBy bound.now.shape bound.now key.now) → IsTimeIf bound.now.shape bound.now key.now is (Some value.now) result }
{
    match &bound.shape {
        Shape::Join(joining) => row_time(bound, joining, key, value),
        _ => time_of(bound, key.as_slice()),
    }
}

/// The time of what is kept under these bytes, if anything is.
fn time_if(bound: &Bound, key: &Bytes, value: Option<&Bytes>) -> Option<i64>
    requires { HasWindows bound.now }
    ensures { (is : IsKeyBy bound.now.shape bound.now key.now) → IsTimeIf bound.now.shape bound.now key.now is (option_copied value.entry) result }
{
    entry_time(bound, key, value?)
}

/// Whether anything that is kept may have a time. Else it is kept for good.
fn have_times(bound: &Bound) -> bool
    ensures { result ≡ false → (key : List ℕ) (is : IsKeyBy bound.now.shape bound.now key) (value : List ℕ) → IsTimeIf bound.now.shape bound.now key is (Some value) None }
{
    match &bound.shape {
        Shape::Join(joining) => joining.bound.is_some(),
        _ => keys_have_times(bound),
    }
}

/// Puts a key under its time, where it has one.
fn put_under(
    entries: &mut BTreeSet<(i64, Bytes)>,
    key: &Bytes,
    time: Option<i64>,
) -> Result<(), AllocError>
    ensures { OnOk result (TurnsAt key.now None time entries.old.keys entries.new.keys) }
{
    if let Some(time) = time {
        entries.insert((time, key.clone()?))?;
    }
    Ok(())
}

/// Takes a key away from its time, where it has one.
fn take_from(
    entries: &mut BTreeSet<(i64, Bytes)>,
    key: &Bytes,
    time: Option<i64>,
) -> Result<(), AllocError>
    ensures { OnOk result (TurnsAt key.now time None entries.old.keys entries.new.keys) }
{
    if let Some(time) = time {
        entries.remove(&(time, key.clone()?));
    }
    Ok(())
}

/// Puts a key from one time under another.
fn turn(
    entries: &mut BTreeSet<(i64, Bytes)>,
    key: &Bytes,
    old: Option<i64>,
    new: Option<i64>,
) -> Result<(), AllocError>
    ensures { OnOk result (TurnsAt key.now old new entries.old.keys entries.new.keys) }
{
    if old != new {
        take_from(entries, key, old)?;
        put_under(entries, key, new)?;
    }
    Ok(())
}

/// All that the state keeps by its times.
pub(crate) fn entries_of(
    alloc: Global,
    bound: &Bound,
    state: &StateMap,
) -> Result<BTreeSet<(i64, Bytes)>, AllocError>
    requires { HasWindows bound.now }
    ensures { IfOk result (λ entries. IsIndex bound.now state.now entries.keys) }
{
    let mut entries = BTreeSet::new(alloc);
    if !have_times(bound) {
        return Ok(entries);
    }
    states_are_kept(state);
    for (key, value) in state.iter(alloc)? {
        put_under(&mut entries, key, entry_time(bound, key, value))?;
    }
    Ok(entries)
}

/// Follows the state through a change, by the state before it.
pub(crate) fn follow_change(
    bound: &Bound,
    entries: &mut BTreeSet<(i64, Bytes)>,
    state: &StateMap,
    change: &Change,
) -> Result<(), AllocError>
    requires { HasWindows bound.now }
    ensures { (new : Kept) → IsAfter change.now state.now new → IsIndex bound.now state.now entries.old.keys → OnOk result (IsIndex bound.now new entries.new.keys) }
{
    if !have_times(bound) {
        return Ok(());
    }
    changes_are_kept(change);
    for (key, value) in change.iter() {
        let old = time_if(bound, key, state.get(key));
        let new = time_if(bound, key, value.as_ref());
        turn(entries, key, old, new)?;
    }
    Ok(())
}
