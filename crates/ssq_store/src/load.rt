//! Loading the state of a partition from its files.

ghost use Rattle.std.specs.Prelude.{◌≡◌, ◌≤◌, ◌<◌, ◌^◌, suc, length, None, Some, IfOk, OnOk, IfErr, IfSome, IfNone, IsErrOf};
ghost use Rattle.ssq_outside.specs.Faults.{Rises};
ghost use Rattle.ssq_outside.specs.History.{files_now};
ghost use Rattle.ssq_outside.specs.declared.name.Name.TheVariants as name;
ghost use Rattle.ssq_version.specs.State.{AreNews, IsChange, IsAfter, IsState};
ghost use Rattle.ssq_version.specs.Text.{delta_text};
ghost use Rattle.ssq_store.specs.Fault.{DiskRises};
ghost use Rattle.ssq_store.specs.Loaded.{IsSnapshot, IsNoSnapshot, IsNoDelta, Makes, IsDamaged, Refuses, HaveNone, IsTold, SnapshotRefuses, DeltaRefuses};

use crate::fault::StoreFault;
use ssq_outside::{Disk, DiskError, Name};
use ssq_version::{
    Change, StateMap, apply_owned, are_news, changes_are_kept, read_delta, read_snapshot,
    states_are_kept,
};
use std::alloc::{AllocError, Global};

/// What was read, where it is of this partition and version.
pub(crate) fn of_version<T: Drop>(
    read: Option<(u32, u32, T)>,
    partition: u32,
    version: u32,
) -> Option<T>
    ensures found { IfSome result (λ kept. read ≡ Some (partition, version, kept)) }
    ensures each { (kept : T) → read ≡ Some (partition, version, kept) → result ≡ Some kept }
{
    let (of, at, kept) = read?;
    if of == partition && at == version {
        Some(kept)
    } else {
        None
    }
}

/// The state whose file these bytes are, of this partition and version.
fn state_in(
    alloc: Global,
    text: &[u8],
    partition: u32,
    version: u32,
) -> Result<Option<StateMap>, AllocError>
    ensures found { IfOk result (λ read. IfSome read (IsSnapshot (Some text.now) partition version)) }
    ensures none { IfOk result (λ read. IfNone read (IsNoSnapshot (Some text.now) partition version)) }
{
    let read = read_snapshot(alloc, text)?;
    let Some(state) = of_version(read, partition, version) else {
        return Ok(None);
    };
    states_are_kept(&state);
    Ok(Some(state))
}

/// The change of this state whose file these bytes are, of this partition and version.
fn change_in(
    alloc: Global,
    text: &[u8],
    partition: u32,
    version: u32,
    state: &StateMap,
) -> Result<Option<Change>, AllocError>
    ensures found { IfOk result (λ read. IfSome read (IsTold (Some text.now) partition version state.now)) }
    ensures none { IfOk result (λ read. IfNone read (IsNoDelta (Some text.now) partition version state.now)) }
{
    let read = read_delta(alloc, text)?;
    let Some(change) = of_version(read, partition, version) else {
        return Ok(None);
    };
    if are_news(state, &change) {
        changes_are_kept(&change);
        Ok(Some(change))
    } else {
        Ok(None)
    }
}

/// The state in the snapshot of a version, where that is there. It is damaged where it is the file of no state.
fn snapshot_of<D: Disk>(
    alloc: Global,
    disk: &mut D,
    partition: u32,
    version: u32,
) -> Result<Option<StateMap>, StoreFault>
    ensures found { D.tells → IfOk result (λ read. IfSome read (IsSnapshot (files_now (D.history disk.old) (name.Snapshot partition version)) partition version)) }
    ensures none { D.tells → IfOk result (λ read. IfNone read (files_now (D.history disk.old) (name.Snapshot partition version) ≡ None)) }
    ensures damaged { D.tells → IfErr result (SnapshotRefuses (files_now (D.history disk.old) (name.Snapshot partition version)) partition version) }
    ensures same { D.tells → D.history disk.new ≡ D.history disk.old }
    ensures clock { (D.history disk.old).moment ≤ (D.history disk.new).moment }
    ensures counted { D.faults disk.old ≤ D.faults disk.new }
    ensures cause { IfErr result (λ fault. DiskRises fault (D.faults disk.old) (D.faults disk.new)) }
{
    let name = Name::Snapshot(partition, version);
    let Some(text) = disk.read(alloc, name)? else {
        return Ok(None);
    };
    match state_in(alloc, text.as_slice(), partition, version)? {
        Some(state) => Ok(Some(state)),
        None => Err(StoreFault::Damaged { name }),
    }
}

/// The change in the delta of a version, which is of this state. It is damaged where it is missing or the file of no such change.
fn delta_of<D: Disk>(
    alloc: Global,
    disk: &mut D,
    partition: u32,
    version: u32,
    state: &StateMap,
) -> Result<Change, StoreFault>
    ensures found { D.tells → IfOk result (IsTold (files_now (D.history disk.old) (name.Delta partition version)) partition version state.now) }
    ensures damaged { D.tells → IfErr result (DeltaRefuses (files_now (D.history disk.old) (name.Delta partition version)) partition version state.now) }
    ensures same { D.tells → D.history disk.new ≡ D.history disk.old }
    ensures clock { (D.history disk.old).moment ≤ (D.history disk.new).moment }
    ensures counted { D.faults disk.old ≤ D.faults disk.new }
    ensures cause { IfErr result (λ fault. DiskRises fault (D.faults disk.old) (D.faults disk.new)) }
{
    let name = Name::Delta(partition, version);
    let Some(text) = disk.read(alloc, name)? else {
        return Err(StoreFault::Damaged { name });
    };
    match change_in(alloc, text.as_slice(), partition, version, state)? {
        Some(change) => Ok(change),
        None => Err(StoreFault::Damaged { name }),
    }
}

/// The state after a number of versions.
#[derive(Drop)]
pub(crate) struct Standing {
    pub(crate) versions: u64,
    pub(crate) state: StateMap,
}

/// The state in the newest snapshot among so many versions, or the empty one before the first version where there is none.
pub(crate) fn newest_snapshot<D: Disk>(
    alloc: Global,
    disk: &mut D,
    partition: u32,
    versions: u64,
) -> Result<Standing, StoreFault>
    requires { versions ≤ 2 ^ 32 }
    ensures made { D.tells → IfOk result (λ standing. Makes (files_now (D.history disk.old)) partition standing.versions standing.state) }
    ensures newest { D.tells → IfOk result (λ standing. HaveNone (files_now (D.history disk.old)) partition standing.versions versions) }
    ensures below { IfOk result (λ standing. standing.versions ≤ versions) }
    ensures damaged { D.tells → IfErr result (Refuses (files_now (D.history disk.old)) partition versions) }
    ensures same { D.tells → D.history disk.new ≡ D.history disk.old }
    ensures clock { (D.history disk.old).moment ≤ (D.history disk.new).moment }
    ensures counted { D.faults disk.old ≤ D.faults disk.new }
    ensures cause { IfErr result (λ fault. DiskRises fault (D.faults disk.old) (D.faults disk.new)) }
{
    let mut left = versions;
    while left > 0 {
        let version = left - 1;
        if let Some(state) = snapshot_of(alloc, disk, partition, version as u32)? {
            return Ok(Standing {
                versions: left,
                state,
            });
        }
        left = version;
    }
    Ok(Standing {
        versions: 0,
        state: StateMap::new(alloc),
    })
}

/// Changes the state before a version to that after it, by the version's delta. Where there is no snapshot of the version.
fn follow<D: Disk>(
    alloc: Global,
    disk: &mut D,
    partition: u32,
    version: u32,
    state: &mut StateMap,
) -> Result<(), StoreFault>
    ensures made { D.tells → files_now (D.history disk.old) (name.Snapshot partition version) ≡ None →
        Makes (files_now (D.history disk.old)) partition version state.old → OnOk result (Makes (files_now (D.history disk.old)) partition (suc version) state.new) }
    ensures damaged { D.tells → files_now (D.history disk.old) (name.Snapshot partition version) ≡ None →
        Makes (files_now (D.history disk.old)) partition version state.old → IfErr result (Refuses (files_now (D.history disk.old)) partition (suc version)) }
    ensures same { D.tells → D.history disk.new ≡ D.history disk.old }
    ensures clock { (D.history disk.old).moment ≤ (D.history disk.new).moment }
    ensures counted { D.faults disk.old ≤ D.faults disk.new }
    ensures cause { IfErr result (λ fault. DiskRises fault (D.faults disk.old) (D.faults disk.new)) }
{
    let change = delta_of(alloc, disk, partition, version, state)?;
    apply_owned(alloc, state, change)?;
    states_are_kept(state);
    Ok(())
}

/// The state after so many versions, from one before it: no snapshot is newer than that.
pub(crate) fn follow_all<D: Disk>(
    alloc: Global,
    disk: &mut D,
    partition: u32,
    standing: Standing,
    versions: u64,
) -> Result<StateMap, StoreFault>
    requires few { versions ≤ 2 ^ 32 }
    requires below { standing.versions ≤ versions }
    ensures made { D.tells → HaveNone (files_now (D.history disk.old)) partition standing.versions versions →
        Makes (files_now (D.history disk.old)) partition standing.versions standing.state → IfOk result (Makes (files_now (D.history disk.old)) partition versions) }
    ensures damaged { D.tells → HaveNone (files_now (D.history disk.old)) partition standing.versions versions →
        Makes (files_now (D.history disk.old)) partition standing.versions standing.state → IfErr result (Refuses (files_now (D.history disk.old)) partition versions) }
    ensures same { D.tells → D.history disk.new ≡ D.history disk.old }
    ensures clock { (D.history disk.old).moment ≤ (D.history disk.new).moment }
    ensures counted { D.faults disk.old ≤ D.faults disk.new }
    ensures cause { IfErr result (λ fault. DiskRises fault (D.faults disk.old) (D.faults disk.new)) }
{
    let Standing {
        versions: from,
        mut state,
    } = standing;
    for version in from..versions {
        follow(alloc, disk, partition, version as u32, &mut state)?;
    }
    Ok(state)
}
