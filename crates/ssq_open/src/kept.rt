//! The epochs that a checkpoint keeps.

ghost use Rattle.std.specs.Prelude.{◌≡◌, ◌≤◌, ◌+◌, length, IfOk, IfErr};
ghost use Rattle.ssq_outside.specs.Files.{AreNames};
ghost use Rattle.ssq_outside.specs.History.{files_now};
ghost use Rattle.ssq_open.specs.Epochs.{IsProgress, AreEpochs};
ghost use Rattle.ssq_open.specs.Numbers.{AreEpochsInOrder};
ghost use Rattle.ssq_open.specs.Fault.{DiskRises};
ghost use Rattle.ssq_open.specs.Refused.{ProgressRefuses, EpochsRefuse};

use crate::commits::{commits_to, first_damaged};
use crate::fault::OpenFault;
use crate::listing::{committed, planned};
use crate::plans::plans_to;
use crate::streams::Watermarked;
use crate::unread::first_unexpected;
use ssq_outside::{Disk, Name};
use ssq_plans::{PartEnd, Plan, SeenBy};
use ssq_value::Sequence;
use std::alloc::Global;

/// The epochs of a checkpoint.
#[derive(Drop)]
pub(crate) struct Epochs {
    /// The plans of the planned ones.
    pub(crate) plans: Sequence<Plan>,
    /// How many of these are committed.
    pub(crate) committed: u32,
    /// The greatest times over the committed ones.
    pub(crate) seen: Sequence<SeenBy>,
}

/// How far a checkpoint whose files have these names has come by its plans and commits, of parts that begin there.
pub(crate) fn kept_progress<D: Disk>(
    alloc: Global,
    disk: &mut D,
    names: &[Name],
    streams: &[Watermarked],
    first: &[PartEnd],
) -> Result<Epochs, OpenFault>
    ensures progress { D.tells → AreNames (files_now (D.history disk.old)) names.now →
        IfOk result (λ epochs. IsProgress streams.now (files_now (D.history disk.old)) first.now epochs.plans epochs.committed epochs.seen) }
    ensures below { IfOk result (λ epochs. epochs.committed ≤ length epochs.plans) }
    ensures ahead { IfOk result (λ epochs. length epochs.plans ≤ epochs.committed + 1) }
    ensures in_order { IfOk result (AreEpochsInOrder streams.now first.now) }
    ensures refused { D.tells → AreNames (files_now (D.history disk.old)) names.now → IfErr result (ProgressRefuses streams.now (files_now (D.history disk.old)) first.now) }
    ensures same { D.tells → D.history disk.new ≡ D.history disk.old }
    ensures counted { D.faults disk.old ≤ D.faults disk.new }
    ensures cause { IfErr result (λ fault. DiskRises fault (D.faults disk.old) (D.faults disk.new)) }
{
    let planned = planned(names);
    let committed = committed(names, planned);
    let plans = plans_to(alloc, disk, first, planned)?;
    let committed = committed as u32;
    let commits = commits_to(alloc, disk, streams, committed)?;
    match first_damaged(names, plans.as_slice(), commits.marks.as_slice()) {
        Some(name) => Err(OpenFault::Damaged { name }),
        None => Ok(Epochs {
            plans,
            committed,
            seen: commits.seen,
        }),
    }
}

/// The epochs of a checkpoint whose files have these names, of parts that begin there, where so many partitions keep state.
pub(crate) fn kept_epochs<D: Disk>(
    alloc: Global,
    disk: &mut D,
    names: &[Name],
    streams: &[Watermarked],
    first: &[PartEnd],
    keeping: u32,
) -> Result<Epochs, OpenFault>
    ensures kept { D.tells → AreNames (files_now (D.history disk.old)) names.now →
        IfOk result (λ epochs. AreEpochs keeping streams.now (files_now (D.history disk.old)) first.now epochs.plans epochs.committed epochs.seen) }
    ensures in_order { IfOk result (AreEpochsInOrder streams.now first.now) }
    ensures refused { D.tells → AreNames (files_now (D.history disk.old)) names.now → IfErr result (EpochsRefuse keeping streams.now (files_now (D.history disk.old)) first.now) }
    ensures same { D.tells → D.history disk.new ≡ D.history disk.old }
    ensures counted { D.faults disk.old ≤ D.faults disk.new }
    ensures cause { IfErr result (λ fault. DiskRises fault (D.faults disk.old) (D.faults disk.new)) }
{
    let epochs = kept_progress(alloc, disk, names, streams, first)?;
    let planned = epochs.plans.len() as u64;
    match first_unexpected(names, keeping, planned, epochs.committed) {
        Some(name) => Err(OpenFault::Damaged { name }),
        None => Ok(epochs),
    }
}
