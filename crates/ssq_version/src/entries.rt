//! The entries of a file of the state, as they stand in its bytes.

ghost use Rattle.std.specs.Prelude.{◌≡◌, ◌<◌, ◌++◌, ◌^◌, ℕ, List, Option, Some, None, [], ◌∷◌, length, IsTrue, IfOk, IfSome, IsSomeAnd, OnOk, option_copied};
ghost use Rattle.std.specs.List.{AllByRecursion};
ghost use Rattle.ssq_version.specs.State.{Ascends, State as Kept, Change as Told, given_by, given_first};
ghost use Rattle.ssq_version.specs.Text.{entry_text, entries_text, IsSpelled, IsAbove, IsListing, said_of, shown};
ghost use Rattle.ssq_version.specs.declared.form.Form.TheVariants.{Delta, Snapshot};

use crate::entry::{Entry, entry_and_rest};
use crate::form::Form;
use ssq_field::Bytes;
use std::alloc::{AllocError, Global};
use std::cmp::Ordering;
use std::collections::BTreeMap;

/// Whether the key is above the last one, where there is one.
fn is_above(last: Option<&[u8]>, key: &[u8]) -> bool
    ensures only { IsTrue result → IsAbove (option_copied last.entry) key.now }
    ensures each { IsAbove (option_copied last.entry) key.now → IsTrue result }
{
    match last {
        None => true,
        Some(last) => match last.cmp(&key) {
            Ordering::Less => true,
            _ => false,
        },
    }
}

/// The entry in front, where its key is above the last one, and what follows it.
fn next_above<'a>(form: Form, last: Option<&[u8]>, text: &'a [u8]) -> Option<(Entry<'a>, &'a [u8])>
    ensures found { IfSome result (λ parts. text.now ≡ entry_text form (parts.0.key.now, option_copied parts.0.value) ++ parts.1.now) }
    ensures spelled { IfSome result (λ parts. IsSpelled form (parts.0.key.now, option_copied parts.0.value)) }
    ensures above { IfSome result (λ parts. IsAbove (option_copied last.entry) parts.0.key.now) }
    ensures each { (key : List ℕ) (value : Option (List ℕ)) (rest : List ℕ) → IsSpelled form (key, value) → IsAbove (option_copied last.entry) key →
        text.now ≡ entry_text form (key, value) ++ rest →
        IsSomeAnd result (λ parts. (parts.0.key.now ≡ key) × (option_copied parts.0.value ≡ value) × (parts.1.now ≡ rest)) }
{
    let (entry, rest) = entry_and_rest(form, text)?;
    if is_above(last, entry.key) {
        Some((entry, rest))
    } else {
        None
    }
}

/// Whether the bytes are so many entries, with keys that ascend.
pub(crate) fn are_entries(form: Form, text: &[u8], count: u64) -> bool
    ensures only { IsTrue result → IsListing form None count text.now }
    ensures each { IsListing form None count text.now → IsTrue result }
{
    let mut rest = text;
    let mut last = None;
    for _ in 0..count {
        let Some((entry, behind)) = next_above(form, last, rest) else {
            return false;
        };
        last = Some(entry.key);
        rest = behind;
    }
    rest.is_empty()
}

/// A copy of the bytes, where there are any.
fn copied(alloc: Global, bytes: Option<&[u8]>) -> Result<Option<Bytes>, AllocError>
    ensures { IfOk result (λ made. made ≡ option_copied bytes.entry) }
{
    match bytes {
        None => Ok(None),
        Some(bytes) => Ok(Some(Bytes::from_slice(alloc, bytes)?)),
    }
}

/// The entries in the bytes, where they lie.
pub(crate) fn entries_in<'a>(
    alloc: Global,
    form: Form,
    text: &'a [u8],
) -> Result<Vec<Entry<'a>>, AllocError>
    ensures { (entries : Told) → AllByRecursion (IsSpelled form) entries → text.now ≡ entries_text form entries → IfOk result (λ made. shown made.items ≡ entries) }
{
    let mut made = Vec::new(alloc);
    let mut rest = text;
    while let Some((entry, behind)) = entry_and_rest(form, rest) {
        made.push(entry)?;
        rest = behind;
    }
    Ok(made)
}

/// A copy of an entry.
fn changed_copy(alloc: Global, entry: &Entry<'_>) -> Result<(Bytes, Option<Bytes>), AllocError>
    ensures { IfOk result (λ made. made ≡ (entry.now.key.now, option_copied entry.now.value)) }
{
    let key = Bytes::from_slice(alloc, entry.key)?;
    let value = copied(alloc, entry.value)?;
    Ok((key, value))
}

/// Copies of the entries.
fn changed_copies(
    alloc: Global,
    entries: &[Entry<'_>],
) -> Result<Vec<(Bytes, Option<Bytes>)>, AllocError>
    ensures { IfOk result (λ made. made.items ≡ shown entries.now) }
{
    let mut made = Vec::new(alloc);
    for entry in entries {
        made.push(changed_copy(alloc, entry)?)?;
    }
    Ok(made)
}

/// Puts a copy of an entry after those that are there, where it gives a value.
fn push_given(
    alloc: Global,
    given: &mut Vec<(Bytes, Bytes)>,
    entry: &Entry<'_>,
) -> Result<(), AllocError>
    ensures { OnOk result (given.new.items ≡ given.old.items ++ given_first entry.now.key.now (option_copied entry.now.value) []) }
{
    let Some(value) = entry.value else {
        return Ok(());
    };
    let key = Bytes::from_slice(alloc, entry.key)?;
    let value = Bytes::from_slice(alloc, value)?;
    Ok(given.push((key, value))?)
}

/// Copies of the entries that give a value.
fn given_copies(alloc: Global, entries: &[Entry<'_>]) -> Result<Vec<(Bytes, Bytes)>, AllocError>
    ensures { IfOk result (λ made. made.items ≡ given_by (shown entries.now)) }
{
    let mut given = Vec::new(alloc);
    for entry in entries {
        push_given(alloc, &mut given, entry)?;
    }
    Ok(given)
}

/// A copy of the entries of a delta.
pub(crate) fn changed_entries(
    alloc: Global,
    text: &[u8],
) -> Result<Vec<(Bytes, Option<Bytes>)>, AllocError>
    ensures { (change : Told) → AllByRecursion (IsSpelled Delta) change → text.now ≡ entries_text Delta change →
        IfOk result (λ made. made.items ≡ change) }
{
    let entries = entries_in(alloc, Form::Delta, text)?;
    changed_copies(alloc, entries.as_slice())
}

/// A copy of the entries of a snapshot.
pub(crate) fn kept_entries(alloc: Global, text: &[u8]) -> Result<Vec<(Bytes, Bytes)>, AllocError>
    ensures { (state : Kept) → AllByRecursion (IsSpelled Snapshot) (said_of state) → text.now ≡ entries_text Snapshot (said_of state) →
        IfOk result (λ made. made.items ≡ state) }
{
    let entries = entries_in(alloc, Form::Snapshot, text)?;
    given_copies(alloc, entries.as_slice())
}

/// The map of these entries, whose keys ascend.
pub(crate) fn map_of<V: Drop>(
    alloc: Global,
    entries: Vec<(Bytes, V)>,
) -> Result<BTreeMap<Bytes, V>, AllocError>
    ensures { Ascends entries.items → IfOk result (λ map. map.entries ≡ entries.items) }
{
    entries.into_iter().collect(alloc)
}
