//! What the names of a checkpoint's files say, without a look into the files.

ghost use Rattle.std.specs.Prelude.{◌≡◌, ◌<◌, ◌≤◌, ◌+◌, ◌^◌, ◌↔◌, ℕ, AllPairs, Contains, IsTrue, IfOk, IfSome, IfNone, IsErrOf, filter};
ghost use Rattle.std.specs.Option.{option_copied};
ghost use Rattle.std.specs.List.{find};
ghost use Rattle.ssq_outside.specs.Faults.{Rises};
ghost use Rattle.ssq_outside.specs.Files.{AreNames, IsEmpty, name_before};
ghost use Rattle.ssq_outside.specs.History.{files_now};
ghost use Rattle.ssq_core.specs.Sound.{is_state};
ghost use Rattle.ssq_open.specs.Listing.{is_commit_from, is_out_from};
ghost use Rattle.ssq_open.specs.Epochs.{is_stray};

use ssq_outside::{Disk, DiskError, Name};
use ssq_value::Sequence;
use std::alloc::Global;

/// The names of a checkpoint's files. `None` where no file is there.
pub(crate) fn names_in<D: Disk>(
    alloc: Global,
    disk: &mut D,
) -> Result<Option<Sequence<Name>>, DiskError>
    ensures names { D.tells → IfOk result (λ read. IfSome read (AreNames (files_now (D.history disk.old)))) }
    ensures some { D.tells → IfOk result (λ read. IfSome read (λ _. IsEmpty (files_now (D.history disk.old)) → ⊥)) }
    ensures none { D.tells → IfOk result (λ read. IfNone read (IsEmpty (files_now (D.history disk.old)))) }
    ensures same { D.tells → D.history disk.new ≡ D.history disk.old }
    ensures counted { D.faults disk.old ≤ D.faults disk.new }
    ensures cause { IsErrOf result DiskError.Fault → Rises (D.faults disk.old) (D.faults disk.new) }
{
    let names = Sequence::from_vec(disk.names(alloc)?);
    if names.is_empty() {
        Ok(None)
    } else {
        Ok(Some(names))
    }
}

/// How many epochs are planned: the greatest plan's number and one.
pub(crate) fn planned(names: &[Name]) -> u64
    ensures below { (e : ℕ) → Contains names.now (Name.Plan e) → e < result }
    ensures greatest { (e : ℕ) → result ≡ e + 1 → Contains names.now (Name.Plan e) }
    ensures fits { result ≤ 2 ^ 32 }
{
    let mut planned = 0;
    for name in names {
        if let Name::Plan(epoch) = name {
            if planned <= *epoch as u64 {
                planned = *epoch as u64 + 1;
            }
        }
    }
    planned
}

/// Whether a file is there.
pub(crate) fn has(names: &[Name], name: Name) -> bool
    ensures { IsTrue result ↔ Contains names.now name }
{
    names.contains(&name)
}

fn is_commit_from(name: Name, from: u64) -> bool
    ensures { result ≡ is_commit_from from name }
{
    match name {
        Name::Commit(epoch) => from <= epoch as u64,
        _ => false,
    }
}

/// The first commit of this epoch or a later one.
pub(crate) fn commit_from(names: &[Name], from: u64) -> Option<Name>
    ensures { result ≡ find (is_commit_from from) names.now }
{
    names
        .iter()
        .copied()
        .find(|name| is_commit_from(*name, from))
}

fn is_out_from(name: Name, from: u64) -> bool
    ensures { result ≡ is_out_from from name }
{
    match name {
        Name::Out(epoch) => from <= epoch as u64,
        _ => false,
    }
}

/// The first sink file of this epoch or a later one.
pub(crate) fn out_from(names: &[Name], from: u64) -> Option<Name>
    ensures { result ≡ find (is_out_from from) names.now }
{
    names.iter().copied().find(|name| is_out_from(*name, from))
}

fn is_stray(name: Name, keeping: u32, planned: u64) -> bool
    ensures { result ≡ is_stray keeping planned name }
{
    match name {
        Name::Delta(partition, version) => !(partition < keeping && (version as u64) < planned),
        Name::Snapshot(partition, version) => !(partition < keeping && (version as u64) < planned),
        _ => false,
    }
}

/// The first file of the state that may not be there, where so many partitions keep state and so many epochs are planned.
pub(crate) fn stray_file(names: &[Name], keeping: u32, planned: u64) -> Option<Name>
    ensures { result ≡ find (is_stray keeping planned) names.now }
{
    names
        .iter()
        .copied()
        .find(|name| is_stray(*name, keeping, planned))
}

/// How many sink files there are from that of epoch 0 on, before the first that is missing.
pub(crate) fn written(names: &[Name]) -> u64
    ensures there { (e : ℕ) → e < result → Contains names.now (Name.Out e) }
    ensures absent { AllPairs (λ m n. IsTrue (name_before m n)) names.now → Contains names.now (Name.Out result) → ⊥ }
    ensures fits { result ≤ 2 ^ 32 }
{
    let mut written = 0;
    for name in names {
        if let Name::Out(epoch) = name {
            if *epoch as u64 == written {
                written += 1;
            }
        }
    }
    written
}

/// How many of the planned epochs are committed, going by the names alone: all, or all but the last.
pub(crate) fn committed(names: &[Name], planned: u64) -> u64
    requires { planned ≤ 2 ^ 32 }
    ensures below { result ≤ planned }
    ensures ahead { planned ≤ result + 1 }
    ensures last { (e : ℕ) → planned ≡ e + 1 → result ≡ planned → Contains names.now (Name.Commit e) }
    ensures pending { (e : ℕ) → planned ≡ e + 1 → result ≡ e → Contains names.now (Name.Commit e) → ⊥ }
{
    if planned == 0 {
        return 0;
    }
    let last = (planned - 1) as u32;
    if has(names, Name::Commit(last)) {
        planned
    } else {
        last as u64
    }
}

/// Whether a file is of the state.
fn is_of_state(name: Name) -> bool
    ensures { result ≡ is_state name }
{
    matches!(name, Name::Delta(..) | Name::Snapshot(..))
}

/// The names of the files of the state among others.
pub(crate) fn files_of_state(names: Sequence<Name>) -> Sequence<Name>
    ensures { result ≡ filter is_state names }
{
    let mut names = names.into_vec();
    names.retain(|name| is_of_state(*name));
    Sequence::from_vec(names)
}
