//! The commits of a checkpoint, in order, and the watermarks that they give.

ghost use Rattle.std.specs.Prelude.{◌≡◌, ◌<◌, ◌≤◌, ◌+◌, ◌⊎◌, ℕ, List, length, OnOk, IfOk, IfErr, IfNone, IfSome, IsTrue};
ghost use Rattle.ssq_outside.specs.Files.{Files, AreNames};
ghost use Rattle.ssq_outside.specs.History.{files_now};
ghost use Rattle.ssq_open.specs.Epochs.{is_own, IsMarked, ArePlansOf, AreMarks, AreCommitted, HasNoCommitFrom};
ghost use Rattle.ssq_open.specs.Spelled.{IsTheCommit};
ghost use Rattle.ssq_open.specs.Fault.{DiskRises};
ghost use Rattle.ssq_open.specs.Refused.{CommitRefuses, CommitsRefuse, CommitsPassed, MarkRefuses};
ghost use Rattle.ssq_open.specs.Numbers.{AreTimesInOrder};
ghost use Rattle.ssq_plans.specs.Records.{IsCommit};
ghost use Rattle.ssq_open.specs.declared.fault.OpenFault.TheVariants.{Damaged};
ghost use Rattle.ssq_open.specs.declared.streams.Watermarked.{Watermarked as WatermarkedOf};

use crate::fault::OpenFault;
use crate::listing::commit_from;
use crate::read::record_in;
use crate::streams::{Watermarked, has_lines, is_mark, mark_by};
use ssq_outside::{Disk, Name};
use ssq_plans::{Commit, Plan, SeenBy};
use ssq_value::Sequence;
use std::alloc::Global;

/// Whether this is the commit of that epoch.
fn is_own(streams: &[Watermarked], epoch: u32, commit: &Commit) -> bool
    ensures { result ≡ is_own streams.now epoch commit.now }
{
    commit.epoch == epoch && has_lines(streams, commit.seen.as_slice())
}

/// The commit of an epoch.
fn own_commit<D: Disk>(
    alloc: Global,
    disk: &mut D,
    streams: &[Watermarked],
    epoch: u32,
) -> Result<Commit, OpenFault>
    ensures commit { D.tells → IfOk result (IsTheCommit (files_now (D.history disk.old)) epoch) }
    ensures own { IfOk result (λ commit. IsTrue (is_own streams.now epoch commit)) }
    ensures in_range { IfOk result IsCommit }
    ensures refused { D.tells → IfErr result (CommitRefuses streams.now (files_now (D.history disk.old)) epoch) }
    ensures same { D.tells → D.history disk.new ≡ D.history disk.old }
    ensures counted { D.faults disk.old ≤ D.faults disk.new }
    ensures cause { IfErr result (λ fault. DiskRises fault (D.faults disk.old) (D.faults disk.new)) }
{
    match record_in(alloc, disk, Name::Commit(epoch))? {
        Some(commit) => {
            if is_own(streams, epoch, &commit) {
                Ok(commit)
            } else {
                Err(OpenFault::Damaged {
                    name: Name::Commit(epoch),
                })
            }
        }
        None => Err(OpenFault::Damaged {
            name: Name::Commit(epoch),
        }),
    }
}

/// What the commits of the first epochs say.
#[derive(Drop)]
pub(crate) struct Committed {
    /// The watermark of each epoch up to the one after them.
    pub(crate) marks: Sequence<Option<i128>>,
    /// The greatest times over these epochs: nothing before the first.
    pub(crate) seen: Sequence<SeenBy>,
}

/// One epoch more.
fn advance<D: Disk>(
    alloc: Global,
    disk: &mut D,
    streams: &[Watermarked],
    found: &mut Committed,
    epoch: u32,
) -> Result<(), OpenFault>
    ensures committed { D.tells → AreCommitted streams.now (files_now (D.history disk.old)) epoch found.old.marks found.old.seen →
        OnOk result (AreCommitted streams.now (files_now (D.history disk.old)) (epoch + 1) found.new.marks found.new.seen) }
    ensures count { OnOk result (length found.new.marks ≡ length found.old.marks + 1) }
    ensures in_order { OnOk result (AreTimesInOrder streams.now found.new.seen) }
    ensures refused { D.tells → IfErr result (CommitRefuses streams.now (files_now (D.history disk.old)) epoch) }
    ensures same { D.tells → D.history disk.new ≡ D.history disk.old }
    ensures counted { D.faults disk.old ≤ D.faults disk.new }
    ensures cause { IfErr result (λ fault. DiskRises fault (D.faults disk.old) (D.faults disk.new)) }
{
    let commit = own_commit(alloc, disk, streams, epoch)?;
    found.marks.push(mark_by(streams, commit.seen.as_slice()))?;
    found.seen = commit.seen;
    Ok(())
}

/// What the commits of the first epochs say.
pub(crate) fn commits_to<D: Disk>(
    alloc: Global,
    disk: &mut D,
    streams: &[Watermarked],
    count: u32,
) -> Result<Committed, OpenFault>
    ensures committed { D.tells → IfOk result (λ found. AreCommitted streams.now (files_now (D.history disk.old)) count found.marks found.seen) }
    ensures count { IfOk result (λ found. length found.marks ≡ count + 1) }
    ensures in_order { IfOk result (λ found. AreTimesInOrder streams.now found.seen) }
    ensures refused { D.tells → IfErr result (CommitsRefuse streams.now (files_now (D.history disk.old)) count) }
    ensures same { D.tells → D.history disk.new ≡ D.history disk.old }
    ensures counted { D.faults disk.old ≤ D.faults disk.new }
    ensures cause { IfErr result (λ fault. DiskRises fault (D.faults disk.old) (D.faults disk.new)) }
{
    let mut marks = Sequence::new(alloc);
    marks.push(None)?;
    let mut found = Committed {
        marks,
        seen: Sequence::new(alloc),
    };
    for epoch in 0..count {
        advance(alloc, disk, streams, &mut found, epoch)?;
    }
    Ok(found)
}

/// The first plan that has not the watermark that is its epoch's.
fn first_mismarked(plans: &[Plan], marks: &[Option<i128>]) -> Option<Name>
    requires few { length plans.now ≤ 4294967295 }
    requires each { length plans.now ≤ length marks.now }
    ensures none { (streams : List WatermarkedOf) (files : Files) → ArePlansOf files plans.now → AreMarks streams files marks.now →
        IfNone result ((e : ℕ) → e < length plans.now → IsMarked streams files e) }
    ensures some { (streams : List WatermarkedOf) (files : Files) → ArePlansOf files plans.now → AreMarks streams files marks.now →
        IfSome result (λ at. MarkRefuses streams files (length plans.now) (Damaged at)) }
{
    for (epoch, plan) in plans.iter().enumerate() {
        if !is_mark(plan.watermark, marks[epoch]) {
            return Some(Name::Plan(epoch as u32));
        }
    }
    None
}

/// The first commit of an epoch that is not planned, or, where there is none, the first plan that has not the watermark that is its epoch's.
pub(crate) fn first_damaged(names: &[Name], plans: &[Plan], marks: &[Option<i128>]) -> Option<Name>
    requires few { length plans.now ≤ 4294967295 }
    requires each { length plans.now ≤ length marks.now }
    ensures none { (streams : List WatermarkedOf) (files : Files) → AreNames files names.now → ArePlansOf files plans.now → AreMarks streams files marks.now →
        IfNone result (HasNoCommitFrom files (length plans.now) × ((e : ℕ) → e < length plans.now → IsMarked streams files e)) }
    ensures some { (streams : List WatermarkedOf) (files : Files) → AreNames files names.now → ArePlansOf files plans.now → AreMarks streams files marks.now →
        IfSome result (λ at. CommitsPassed files (length plans.now) (Damaged at)
        ⊎ (HasNoCommitFrom files (length plans.now) × MarkRefuses streams files (length plans.now) (Damaged at))) }
{
    match commit_from(names, plans.len() as u64) {
        Some(name) => Some(name),
        None => first_mismarked(plans, marks),
    }
}
