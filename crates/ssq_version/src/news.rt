//! What a change says that is new to a state.

ghost use Rattle.std.specs.Prelude.{◌≡◌, ◌++◌, length, IsTrue, IfOk, OnOk, option_copied};
ghost use Rattle.ssq_version.specs.State.{is_same, is_news, news, AreNews};
ghost use Rattle.ssq_version.specs.Text.{delta_text, entries_text};
ghost use Rattle.ssq_version.specs.declared.form.Form.TheVariants.{Delta};

use crate::change::Change;
use crate::delta::room;
use crate::entry::put_changed;
use crate::file::begin;
use crate::form::Form;
use crate::state::StateMap;
use ssq_field::Bytes;
use std::alloc::{AllocError, Global};

/// Whether two things that a key may have are one.
pub(crate) fn are_same(one: Option<&[u8]>, other: Option<&[u8]>) -> bool
    ensures { result ≡ is_same (option_copied one.entry) (option_copied other.entry) }
{
    match (one, other) {
        (None, None) => true,
        (Some(one), Some(other)) => one == other,
        _ => false,
    }
}

/// The bytes, where there are any.
fn bytes_of(bytes: Option<&Bytes>) -> Option<&[u8]>
    ensures { option_copied result ≡ option_copied bytes.entry }
{
    match bytes {
        Some(bytes) => Some(bytes.as_slice()),
        None => None,
    }
}

/// Whether the key does not have what is said of it yet.
fn says_news(state: &StateMap, key: &Bytes, value: &Option<Bytes>) -> bool
    ensures { result ≡ is_news state.now (key.now, value.now) }
{
    !are_same(bytes_of(state.get(key)), bytes_of(value.as_ref()))
}

/// Whether all that the change says is new to the state.
pub fn are_news(state: &StateMap, change: &Change) -> bool
    ensures only { IsTrue result → AreNews state.now change.now }
    ensures each { AreNews state.now change.now → IsTrue result }
{
    for (key, value) in change.0.iter() {
        if !says_news(state, key, value) {
            return false;
        }
    }
    true
}

/// Appends the entries of what is new, and tells how many these are.
fn put_news(out: &mut Bytes, state: &StateMap, change: &Change) -> Result<u64, AllocError>
    ensures text { OnOk result (out.new ≡ out.old ++ entries_text Delta (news state.now change.now)) }
    ensures count { IfOk result (λ count. count ≡ length (news state.now change.now)) }
{
    let mut count: u64 = 0;
    for (key, value) in change.0.iter() {
        if says_news(state, key, value) {
            put_changed(out, key, value)?;
            count += 1;
        }
    }
    Ok(count)
}

/// The file of what the change says that is new to the state before it, in two parts: what stands in front of the entries, and these.
pub fn write_news(
    alloc: Global,
    partition: u32,
    version: u32,
    state: &StateMap,
    change: &Change,
) -> Result<(Bytes, Bytes), AllocError>
    ensures { IfOk result (λ parts. parts.0 ++ parts.1 ≡ delta_text partition version (news state.now change.now)) }
{
    let mut entries = Bytes::with_capacity(alloc, room(change))?;
    let count = put_news(&mut entries, state, change)?;
    let head = begin(alloc, Form::Delta, partition, version, count, 0)?;
    Ok((head, entries))
}
