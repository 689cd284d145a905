//! The file of what a version changed.

ghost use Rattle.std.specs.Prelude.{◌≡◌, ◌<◌, ◌++◌, ◌^◌, ℕ, List, Some, None, length, IfOk, IfSome, OnOk};
ghost use Rattle.std.specs.List.{AllByRecursion};
ghost use Rattle.ssq_version.specs.State.{Change as Told, IsChange};
ghost use Rattle.ssq_version.specs.Text.{delta_text, entries_text, IsSpelled, IsFile};
ghost use Rattle.ssq_version.specs.declared.form.Form.TheVariants.{Delta};

use crate::change::Change;
use crate::entries::{changed_entries, map_of};
use crate::entry::put_changed;
use crate::file::{StateFile, begin, read_file};
use crate::form::Form;
use ssq_field::Bytes;
use std::alloc::{AllocError, Global};

/// Appends the entries of a change.
fn put_change(out: &mut Bytes, change: &Change) -> Result<(), AllocError>
    ensures { OnOk result (out.new ≡ out.old ++ entries_text Delta change.now) }
{
    for (key, value) in change.0.iter() {
        put_changed(out, key, value)?;
    }
    Ok(())
}

/// How many bytes the entries of a change take, so that their file grows but once.
pub(crate) fn room(change: &Change) -> usize {
    let mut room: usize = 0;
    for (key, value) in change.0.iter() {
        let value = match value {
            Some(value) => value.len().saturating_add(4),
            None => 0,
        };
        room = room
            .saturating_add(key.len().saturating_add(5))
            .saturating_add(value);
    }
    room
}

/// The file of what a version changed in the state of a partition.
pub fn write_delta(
    alloc: Global,
    partition: u32,
    version: u32,
    change: &Change,
) -> Result<Bytes, AllocError>
    ensures { IfOk result (λ text. text ≡ delta_text partition version change.now) }
{
    let mut out = begin(
        alloc,
        Form::Delta,
        partition,
        version,
        change.len() as u64,
        room(change),
    )?;
    put_change(&mut out, change)?;
    Ok(out)
}

/// The change in a file that was read.
fn change_in(alloc: Global, file: StateFile<'_>) -> Result<Change, AllocError>
    requires { (text : List ℕ) × IsFile Delta text file.partition file.version file.count file.entries.now }
    ensures { (entries : Told) → file.entry.entries.now ≡ entries_text Delta entries → AllByRecursion (IsSpelled Delta) entries → IfOk result (λ change. change ≡ entries) }
{
    let entries = changed_entries(alloc, file.entries)?;
    Ok(Change(map_of(alloc, entries)?))
}

/// The partition, the version and the change whose file these bytes are. `None` where they are no change's.
pub fn read_delta(alloc: Global, text: &[u8]) -> Result<Option<(u32, u32, Change)>, AllocError>
    ensures found { IfOk result (λ read. IfSome read (λ delta. text.now ≡ delta_text delta.0 delta.1 delta.2)) }
    ensures in_range { IfOk result (λ read. IfSome read (λ delta. (delta.0 < 2 ^ 32) × (delta.1 < 2 ^ 32) × IsChange delta.2)) }
    // So `None` comes only where no change of a partition and a version has this file.
    ensures each { (partition version : ℕ) (change : Told) → partition < 2 ^ 32 → version < 2 ^ 32 → IsChange change → length change < 2 ^ 64 →
        text.now ≡ delta_text partition version change → IfOk result (λ read. read ≡ Some (partition, version, change)) }
{
    let Some(file) = read_file(Form::Delta, text) else {
        return Ok(None);
    };
    let change = change_in(alloc, file)?;
    Ok(Some((file.partition, file.version, change)))
}
