//! The state after a change.

ghost use Rattle.std.specs.Prelude.{◌≡◌, [], ◌++◌, List, ℕ, Some, None, IfOk, IfSome, IsSome, OnOk, OnErr, false};
ghost use Rattle.std.specs.BTreeMap.{is_at};
ghost use Rattle.ssq_version.specs.State.{State as Kept, by_bytes, value_at, given_by, given_first, IsShort, IsShortOrNone, Ascends, IsAfter, IsChangedAt, HasRoom, SaysSame, IsWithout};

use crate::change::{Change, changes_are_kept};
use crate::state::{StateMap, states_are_kept};
use ssq_field::Bytes;
use std::alloc::{AllocError, Global};

/// Gives a key that is there a value, which takes no memory.
fn replace(state: &mut StateMap, key: Bytes, value: Bytes)
    requires key { IsShort key }
    requires value { IsShort value }
    requires there { IsSome (value_at state.old key) }
    ensures { IsChangedAt key (Some value) state.old state.new }
{
    let _old = state.0.insert(key, value);
}

/// Takes a key away, where it is there.
fn take_away(state: &mut StateMap, key: &Bytes)
    ensures { IsChangedAt key.now None state.old state.new }
{
    state.0.remove(key);
}

/// Changes what a key has, which takes no memory: one that is given a value is there.
fn change_at(state: &mut StateMap, key: Bytes, value: Option<Bytes>)
    requires key { IsShort key }
    requires value { IsShortOrNone value }
    requires there { IfSome value (λ _. IsSome (value_at state.old key)) }
    ensures { IsChangedAt key value state.old state.new }
{
    match value {
        Some(value) => replace(state, key, value),
        None => take_away(state, &key),
    }
}

/// Changes the state, which takes no memory: each key that is given a value is there.
fn settle(state: &mut StateMap, change: Change)
    requires { HasRoom state.old change }
    ensures { IsAfter change state.old state.new }
{
    let Change(entries) = change;
    for (key, value) in entries {
        change_at(state, key, value);
    }
}

/// Puts the key there, with a value for now. After an `Err` the state is as before.
fn add(alloc: Global, state: &mut StateMap, key: &Bytes) -> Result<(), AllocError>
    requires { IsShort key.now }
    ensures ok { OnOk result (IsChangedAt key.now (Some []) state.old state.new) }
    ensures err { OnErr result (state.new ≡ state.old) }
{
    state.0.insert(key.clone()?, Bytes::new(alloc))
}

/// Puts the key there, unless it is, and notes that.
fn make_room_for<'a>(
    alloc: Global,
    state: &mut StateMap,
    key: &'a Bytes,
    added: &mut Vec<&'a Bytes>,
) -> Result<(), AllocError>
    requires { IsShort key.now }
    ensures there { OnOk result (IsSome (value_at state.new key.now)) }
    ensures others { (other : List ℕ) → is_at (by_bytes key.now) other ≡ false → value_at state.new other ≡ value_at state.old other }
    ensures without { (start : Kept) → IsWithout (λ key. key.now) added.old.items start state.old → IsWithout (λ key. key.now) added.new.items start state.new }
{
    if state.get(key).is_some() {
        return Ok(());
    }
    added.push(key)?;
    add(alloc, state, key)
}

/// Puts each key there that is given a value, and notes which were not.
fn make_rooms<'a>(
    alloc: Global,
    state: &mut StateMap,
    change: &'a Change,
    added: &mut Vec<&'a Bytes>,
) -> Result<(), AllocError>
    ensures room { OnOk result (HasRoom state.new change.now) }
    ensures same { SaysSame change.now state.old state.new }
    ensures without { (start : Kept) → IsWithout (λ key. key.now) added.old.items start state.old → IsWithout (λ key. key.now) added.new.items start state.new }
{
    for (key, value) in change.0.iter() {
        if value.is_some() {
            make_room_for(alloc, state, key, added)?;
        }
    }
    Ok(())
}

/// Takes the keys away again.
fn take_back(state: &mut StateMap, added: Vec<&Bytes>)
    ensures { (start : Kept) → IsWithout (λ key. key.now) added.entry.items start state.old → Ascends start → state.new ≡ start }
{
    for key in added {
        take_away(state, key);
    }
    states_are_kept(state);
}

/// Puts each key there that is given a value. After an `Err` the state is as before.
fn make_room(alloc: Global, state: &mut StateMap, change: &Change) -> Result<(), AllocError>
    ensures room { OnOk result (HasRoom state.new change.now) }
    ensures same { OnOk result (SaysSame change.now state.old state.new) }
    ensures err { OnErr result (state.new ≡ state.old) }
{
    states_are_kept(state);
    let mut added = Vec::new(alloc);
    match make_rooms(alloc, state, change, &mut added) {
        Ok(()) => Ok(()),
        Err(refused) => {
            take_back(state, added);
            Err(refused)
        }
    }
}

/// Puts an entry after those that are there, where it gives a value.
fn push_given(
    given: &mut Vec<(Bytes, Bytes)>,
    key: Bytes,
    value: Option<Bytes>,
) -> Result<(), AllocError>
    ensures { OnOk result (given.new.items ≡ given.old.items ++ given_first key value []) }
{
    match value {
        Some(value) => Ok(given.push((key, value))?),
        None => Ok(()),
    }
}

/// The entries of a change that give a value.
fn given(alloc: Global, change: Change) -> Result<Vec<(Bytes, Bytes)>, AllocError>
    ensures { IfOk result (λ given. given.items ≡ given_by change) }
{
    let Change(entries) = change;
    let mut given = Vec::with_capacity(alloc, entries.len())?;
    for (key, value) in entries {
        push_given(&mut given, key, value)?;
    }
    Ok(given)
}

/// Makes a state that keeps nothing yet of what the change gives: its keys ascend, so that none is looked for. After an `Err` the state
/// still keeps nothing.
fn fill(alloc: Global, state: &mut StateMap, change: Change) -> Result<(), AllocError>
    requires { state.old ≡ [] }
    ensures ok { OnOk result (IsAfter change state.old state.new) }
    ensures err { OnErr result (state.new ≡ state.old) }
{
    changes_are_kept(&change);
    let entries = given(alloc, change)?;
    state.0 = state.0.filled(alloc, entries)?;
    Ok(())
}

/// Changes the state, and takes the change's keys and values over. After an `Err` the state is as before.
pub fn apply_owned(alloc: Global, state: &mut StateMap, change: Change) -> Result<(), AllocError>
    ensures ok { OnOk result (IsAfter change state.old state.new) }
    ensures err { OnErr result (state.new ≡ state.old) }
{
    if state.is_empty() {
        return fill(alloc, state, change);
    }
    make_room(alloc, state, &change)?;
    settle(state, change);
    Ok(())
}

/// Changes the state: a key of the change has what the change says of it, and each other key what it had. After an `Err` the state is
/// as before.
pub fn apply(alloc: Global, state: &mut StateMap, change: &Change) -> Result<(), AllocError>
    ensures ok { OnOk result (IsAfter change.now state.old state.new) }
    ensures err { OnErr result (state.new ≡ state.old) }
{
    apply_owned(alloc, state, change.clone()?)
}
