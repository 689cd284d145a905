//! The state that files in a list make, by what lies in their bytes.

ghost use Rattle.std.specs.Prelude.{◌≡◌, ◌≤◌, ◌^◌, [], ℕ, suc, None, Some, IfOk, IfErr, IfSome, IfNone, OnOk, option_copied};
ghost use Rattle.ssq_outside.specs.declared.name.Name.TheVariants as name;
ghost use Rattle.ssq_version.specs.State.{State as Kept, IsChange, given_by, layered};
ghost use Rattle.ssq_version.specs.Text.{AreEntries, file_text, said_of, shown};
ghost use Rattle.ssq_store.specs.Fault.{DiskRises};
ghost use Rattle.ssq_store.specs.Loaded.{content_in, files_in, IsNoSnapshot, IsNoDelta, IsSnapshot, Makes, Refuses, HaveNone, IsTold, SnapshotRefuses, DeltaRefuses};

use crate::fault::StoreFault;
use crate::load::of_version;
use ssq_field::Bytes;
use ssq_outside::Name;
use ssq_version::{Entry, Form, merge, read_entries, say_news};
use std::alloc::{AllocError, Global};

/// The first file of that name.
fn file_of(files: &[(Name, Bytes)], name: Name) -> Option<&Bytes>
    ensures { option_copied result ≡ content_in files.now name }
{
    for (of, text) in files {
        if of.is(name) {
            return Some(text);
        }
    }
    None
}

/// The entries of the state whose file these bytes are, of this partition and version.
fn state_in<'a>(
    alloc: Global,
    text: &'a [u8],
    partition: u32,
    version: u32,
) -> Result<Option<Vec<Entry<'a>>>, AllocError>
    ensures found { IfOk result (λ read. IfSome read (λ entries. (state : Kept) × (shown entries.items ≡ said_of state) × IsSnapshot (Some text.now) partition version state)) }
    ensures none { IfOk result (λ read. IfNone read (IsNoSnapshot (Some text.now) partition version)) }
{
    let read = read_entries(alloc, Form::Snapshot, text)?;
    Ok(of_version(read, partition, version))
}

/// The entries of the change of this state whose file these bytes are, of this partition and version.
fn change_in<'a>(
    alloc: Global,
    text: &'a [u8],
    partition: u32,
    version: u32,
    older: &[Entry<'a>],
    newer: &[Entry<'a>],
) -> Result<Option<Vec<Entry<'a>>>, AllocError>
    requires older { IsChange (shown older.now) }
    requires newer { IsChange (shown newer.now) }
    ensures found { IfOk result (λ read. IfSome read (λ entries. IsTold (Some text.now) partition version (layered (shown older.now) (shown newer.now)) (shown entries.items))) }
    ensures none { IfOk result (λ read. IfNone read (IsNoDelta (Some text.now) partition version (layered (shown older.now) (shown newer.now)))) }
{
    let read = read_entries(alloc, Form::Delta, text)?;
    let Some(change) = of_version(read, partition, version) else {
        return Ok(None);
    };
    if say_news(older, newer, change.as_slice()) {
        Ok(Some(change))
    } else {
        Ok(None)
    }
}

/// The entries in the snapshot of a version, where that is in the list. It is damaged where it is the file of no state.
fn snapshot_in<'a>(
    alloc: Global,
    files: &'a [(Name, Bytes)],
    partition: u32,
    version: u32,
) -> Result<Option<Vec<Entry<'a>>>, StoreFault>
    ensures found { IfOk result (λ read. IfSome read
        (λ entries. (state : Kept) × (shown entries.items ≡ said_of state) × IsSnapshot (content_in files.now (name.Snapshot partition version)) partition version state)) }
    ensures none { IfOk result (λ read. IfNone read (content_in files.now (name.Snapshot partition version) ≡ None)) }
    ensures damaged { IfErr result (SnapshotRefuses (content_in files.now (name.Snapshot partition version)) partition version) }
    ensures cause { (before now : ℕ) → IfErr result (λ fault. DiskRises fault before now) }
{
    let name = Name::Snapshot(partition, version);
    let Some(text) = file_of(files, name) else {
        return Ok(None);
    };
    match state_in(alloc, text.as_slice(), partition, version)? {
        Some(entries) => Ok(Some(entries)),
        None => Err(StoreFault::Damaged { name }),
    }
}

/// The entries in the delta of a version, which is of this state. It is damaged where it is missing or the file of no such change.
fn delta_in<'a>(
    alloc: Global,
    files: &'a [(Name, Bytes)],
    partition: u32,
    version: u32,
    older: &[Entry<'a>],
    newer: &[Entry<'a>],
) -> Result<Vec<Entry<'a>>, StoreFault>
    requires older { IsChange (shown older.now) }
    requires newer { IsChange (shown newer.now) }
    ensures found { IfOk result (λ entries. IsTold (content_in files.now (name.Delta partition version)) partition version (layered (shown older.now) (shown newer.now)) (shown entries.items)) }
    ensures damaged { IfErr result (DeltaRefuses (content_in files.now (name.Delta partition version)) partition version (layered (shown older.now) (shown newer.now))) }
    ensures cause { (before now : ℕ) → IfErr result (λ fault. DiskRises fault before now) }
{
    let name = Name::Delta(partition, version);
    let Some(text) = file_of(files, name) else {
        return Err(StoreFault::Damaged { name });
    };
    match change_in(alloc, text.as_slice(), partition, version, older, newer)? {
        Some(change) => Ok(change),
        None => Err(StoreFault::Damaged { name }),
    }
}

/// The entries of the newest snapshot among so many versions, and how many versions there are up to it: none before the first version.
fn newest_in<'a>(
    alloc: Global,
    files: &'a [(Name, Bytes)],
    partition: u32,
    versions: u64,
) -> Result<(u64, Vec<Entry<'a>>), StoreFault>
    requires { versions ≤ 2 ^ 32 }
    ensures made { IfOk result (λ newest. Makes (files_in files.now) partition newest.0 (layered (shown newest.1.items) [])) }
    ensures kept { IfOk result (λ newest. IsChange (shown newest.1.items)) }
    ensures newest { IfOk result (λ newest. HaveNone (files_in files.now) partition newest.0 versions) }
    ensures below { IfOk result (λ newest. newest.0 ≤ versions) }
    ensures damaged { IfErr result (Refuses (files_in files.now) partition versions) }
    ensures cause { (before now : ℕ) → IfErr result (λ fault. DiskRises fault before now) }
{
    let mut left = versions;
    while left > 0 {
        let version = left - 1;
        if let Some(entries) = snapshot_in(alloc, files, partition, version as u32)? {
            return Ok((left, entries));
        }
        left = version;
    }
    Ok((0, Vec::new(alloc)))
}

/// Lays the change of a version over what is said over the snapshot's entries, where both are of the state before it. Where there is no
/// snapshot of the version.
fn follow_in<'a>(
    alloc: Global,
    files: &'a [(Name, Bytes)],
    partition: u32,
    version: u32,
    older: &[Entry<'a>],
    newer: &mut Vec<Entry<'a>>,
) -> Result<(), StoreFault>
    requires older { IsChange (shown older.now) }
    requires newer { IsChange (shown newer.old.items) }
    ensures made { files_in files.now (name.Snapshot partition version) ≡ None →
        Makes (files_in files.now) partition version (layered (shown older.now) (shown newer.old.items)) →
        OnOk result (Makes (files_in files.now) partition (suc version) (layered (shown older.now) (shown newer.new.items))) }
    ensures kept { OnOk result (IsChange (shown newer.new.items)) }
    ensures damaged { files_in files.now (name.Snapshot partition version) ≡ None →
        Makes (files_in files.now) partition version (layered (shown older.now) (shown newer.old.items)) → IfErr result (Refuses (files_in files.now) partition (suc version)) }
    ensures cause { (before now : ℕ) → IfErr result (λ fault. DiskRises fault before now) }
{
    let change = delta_in(alloc, files, partition, version, older, newer.as_slice())?;
    *newer = merge(alloc, newer.as_slice(), change.as_slice())?;
    Ok(())
}

/// What the files make after so many versions, as entries: what these give.
pub(crate) fn made_by<'a>(
    alloc: Global,
    files: &'a [(Name, Bytes)],
    partition: u32,
    versions: u64,
) -> Result<Vec<Entry<'a>>, StoreFault>
    requires { versions ≤ 2 ^ 32 }
    ensures made { IfOk result (λ entries. Makes (files_in files.now) partition versions (given_by (shown entries.items))) }
    ensures kept { IfOk result (λ entries. IsChange (shown entries.items)) }
    ensures damaged { IfErr result (Refuses (files_in files.now) partition versions) }
    ensures cause { (before now : ℕ) → IfErr result (λ fault. DiskRises fault before now) }
{
    let (from, older) = newest_in(alloc, files, partition, versions)?;
    let mut newer = Vec::new(alloc);
    for version in from..versions {
        follow_in(
            alloc,
            files,
            partition,
            version as u32,
            older.as_slice(),
            &mut newer,
        )?;
    }
    Ok(merge(alloc, older.as_slice(), newer.as_slice())?)
}
