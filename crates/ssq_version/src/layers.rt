//! The entries of files of the state where they lie in the files' bytes: so a snapshot is made of the one before it and of deltas, without a copy of what is
//! kept.

ghost use Rattle.std.specs.Prelude.{◌≡◌, ◌<◌, ◌+◌, ◌∷◌, ◌^◌, [], ℕ, length, drop, ◌≤◌, IfOk, OnOk, IfSome, IfNone, IsSomeAnd, IsTrue, ◌++◌, option_copied, option_map};
ghost use Rattle.std.specs.List.{AllByRecursion};
ghost use Rattle.ssq_version.specs.State.{AreNews, Ascends, Change as Told, IsChange, IsShort, IsShortOrNone, by_bytes, given_by, laid, layered, value_at};
ghost use Rattle.ssq_version.specs.declared.form.Form.TheVariants.{Snapshot};
ghost use Rattle.ssq_version.specs.Text.{AreEntries, IsSpelled, entries_text, file_text, kept_text, said_of, shown, snapshot_text};

use crate::entries::entries_in;
use crate::entry::{Entry, put_slice};
use crate::file::{begin, read_file};
use crate::form::Form;
use crate::news::are_same;
use ssq_field::Bytes;
use std::alloc::{AllocError, Global};
use std::cmp::Ordering;

/// The partition, the version and the entries of the file of this form whose bytes these are. `None` where they are no such file's.
pub fn read_entries<'a>(
    alloc: Global,
    form: Form,
    text: &'a [u8],
) -> Result<Option<(u32, u32, Vec<Entry<'a>>)>, AllocError>
    ensures found { IfOk result (λ read. IfSome read (λ file. AreEntries form (shown file.2.items) × (text.now ≡ file_text form file.0 file.1 (shown file.2.items)))) }
    // So `None` comes only where no entries of a partition and a version have this file.
    ensures each { (partition version : ℕ) (entries : Told) → partition < 2 ^ 32 → version < 2 ^ 32 → AreEntries form entries →
        text.now ≡ file_text form partition version entries →
        IfOk result (λ read. IsSomeAnd read (λ file. (file.0 ≡ partition) × (file.1 ≡ version) × (shown file.2.items ≡ entries))) }
{
    let Some(file) = read_file(form, text) else {
        return Ok(None);
    };
    let entries = entries_in(alloc, form, file.entries)?;
    Ok(Some((file.partition, file.version, entries)))
}

/// How the key of an entry stands to another key.
fn order_of(entry: &Entry<'_>, key: &[u8]) -> Ordering
    ensures { result ≡ by_bytes entry.now.key.now key.now }
{
    entry.key.cmp(&key)
}

/// What the entries, in the order of keys, say of a key.
fn find<'a>(entries: &[Entry<'a>], key: &[u8]) -> Option<Option<&'a [u8]>>
    requires { Ascends (shown entries.now) }
    ensures { option_map option_copied result ≡ value_at (shown entries.now) key.now }
{
    match entries.binary_search_by(|entry| order_of(entry, key)) {
        Ok(at) => Some(entries[at].value),
        Err(_) => None,
    }
}

/// The first entry of two lists in the order of keys, and how many entries of each it stands for. Where both begin with a key, it is the newer one.
fn first_of<'a>(older: &[Entry<'a>], newer: &[Entry<'a>]) -> Option<(Entry<'a>, usize, usize)>
    requires { Ascends (shown newer.now) }
    ensures first { IfSome result (λ parts. laid (shown newer.now) (shown older.now)
        ≡ (parts.0.key.now, option_copied parts.0.value) ∷ laid (shown (drop parts.2 newer.now)) (shown (drop parts.1 older.now))) }
    ensures within { IfSome result (λ parts. (parts.1 ≤ length older.now) × (parts.2 ≤ length newer.now)) }
    ensures some { IfSome result (λ parts. 1 ≤ parts.1 + parts.2) }
    ensures none { IfNone result (laid (shown newer.now) (shown older.now) ≡ []) }
{
    let Some((new, _)) = newer.split_first() else {
        let (old, _) = older.split_first()?;
        return Some((*old, 1, 0));
    };
    let Some((old, _)) = older.split_first() else {
        return Some((*new, 0, 1));
    };
    match old.key.cmp(&new.key) {
        Ordering::Less => Some((*old, 1, 0)),
        Ordering::Equal => Some((*new, 1, 1)),
        Ordering::Greater => Some((*new, 0, 1)),
    }
}

/// The older entries with the newer ones put among them, each in place of what was said of its key.
pub fn merge<'a>(
    alloc: Global,
    older: &[Entry<'a>],
    newer: &[Entry<'a>],
) -> Result<Vec<Entry<'a>>, AllocError>
    requires { Ascends (shown newer.now) }
    ensures { IfOk result (λ made. shown made.items ≡ laid (shown newer.now) (shown older.now)) }
{
    let mut made = Vec::with_capacity(alloc, older.len().saturating_add(newer.len()))?;
    let (mut old, mut new) = (0, 0);
    while let Some((entry, olds, news)) = first_of(&older[old..], &newer[new..]) {
        made.push(entry)?;
        old += olds;
        new += news;
    }
    Ok(made)
}

/// What a key has in the state of older entries with newer ones over them.
fn kept_in<'a>(older: &[Entry<'a>], newer: &[Entry<'a>], key: &[u8]) -> Option<&'a [u8]>
    requires older { IsChange (shown older.now) }
    requires newer { IsChange (shown newer.now) }
    ensures { option_copied result ≡ value_at (layered (shown older.now) (shown newer.now)) key.now }
{
    match find(newer, key) {
        Some(said) => said,
        None => find(older, key)?,
    }
}

/// Whether all that entries say is new to the state of older entries with newer ones over them.
pub fn say_news<'a>(older: &[Entry<'a>], newer: &[Entry<'a>], entries: &[Entry<'_>]) -> bool
    requires older { IsChange (shown older.now) }
    requires newer { IsChange (shown newer.now) }
    ensures only { IsTrue result → AreNews (layered (shown older.now) (shown newer.now)) (shown entries.now) }
    ensures each { AreNews (layered (shown older.now) (shown newer.now)) (shown entries.now) → IsTrue result }
{
    for entry in entries {
        if are_same(kept_in(older, newer, entry.key), entry.value) {
            return false;
        }
    }
    true
}

/// How many keys the entries give a value.
fn count_given(entries: &[Entry<'_>]) -> u64
    ensures { result ≡ length (given_by (shown entries.now)) }
{
    let mut count: u64 = 0;
    for entry in entries {
        if entry.value.is_some() {
            count += 1;
        }
    }
    count
}

/// How many bytes what the entries give takes, so that its file grows but once.
fn room(entries: &[Entry<'_>]) -> usize {
    let mut room: usize = 0;
    for entry in entries {
        if let Some(value) = entry.value {
            room = room
                .saturating_add(8)
                .saturating_add(entry.key.len())
                .saturating_add(value.len());
        }
    }
    room
}

/// Appends the entry, where it gives a value, as a snapshot has it.
fn put_given(out: &mut Bytes, entry: &Entry<'_>) -> Result<(), AllocError>
    requires key { IsShort entry.now.key.now }
    requires value { IsShortOrNone (option_copied entry.now.value) }
    ensures { OnOk result (out.new ≡ out.old ++ kept_text entry.now.key.now (option_copied entry.now.value)) }
{
    let Some(value) = entry.value else {
        return Ok(());
    };
    put_slice(out, entry.key)?;
    put_slice(out, value)
}

/// Appends the entries that give a value.
fn put_all_given(out: &mut Bytes, entries: &[Entry<'_>]) -> Result<(), AllocError>
    requires { IsChange (shown entries.now) }
    ensures { OnOk result (out.new ≡ out.old ++ entries_text Snapshot (said_of (given_by (shown entries.now)))) }
{
    for entry in entries {
        put_given(out, entry)?;
    }
    Ok(())
}

/// The file of the whole state of a partition at a version, where the state is what these entries give.
pub fn write_given(
    alloc: Global,
    partition: u32,
    version: u32,
    entries: &[Entry<'_>],
) -> Result<Bytes, AllocError>
    requires { IsChange (shown entries.now) }
    ensures { IfOk result (λ text. text ≡ snapshot_text partition version (given_by (shown entries.now))) }
{
    let mut out = begin(
        alloc,
        Form::Snapshot,
        partition,
        version,
        count_given(entries),
        room(entries),
    )?;
    put_all_given(&mut out, entries)?;
    Ok(out)
}
