//! The beginning of a checkpoint.

ghost use Rattle.std.specs.Prelude.{◌≡◌, ◌≤◌, IfOk, IfErr, OnOk};
ghost use Rattle.ssq_outside.specs.Files.{Files, IsEmpty};
ghost use Rattle.ssq_outside.specs.History.{LeavesOnly};
ghost use Rattle.ssq_plans.specs.Records.{IsMeta};
ghost use Rattle.ssq_core.specs.Settled.{IsSettledAs, IsEither};
ghost use Rattle.ssq_open.specs.Fault.{DiskRises};
ghost use Rattle.ssq_open.specs.Numbers.{IsInOrder};
ghost use Rattle.ssq_open.specs.Opening.{CanBeSought, first_meta, only_meta, IsFirst, IsOutside};
ghost use Rattle.ssq_open.specs.Sought.{sought};

use crate::fault::OpenFault;
use crate::stateful::keeping_in;
use crate::stores::load_stores;
use crate::wanted::{Opened, Wanted};
use ssq_core::settle;
use ssq_outside::{Disk, Name};
use ssq_plans::{Meta, write_meta};
use ssq_value::Sequence;
use std::alloc::{AllocError, Global};

/// The record of a new checkpoint of the job.
fn first_meta(alloc: Global, wanted: &Wanted<'_>) -> Result<Meta, AllocError>
    ensures { IfOk result (λ meta. meta ≡ first_meta (sought wanted.now)) }
{
    let partitions = wanted.partitions.unwrap_or(1);
    let parts = Sequence::from_vec(Vec::from_slice(alloc, wanted.parts)?);
    let query = wanted.query.clone()?;
    Ok(Meta {
        partitions,
        parts,
        query,
    })
}

/// Settles the record of the job, where there is no file yet.
fn settle_meta<D: Disk>(alloc: Global, disk: &mut D, meta: &Meta) -> Result<(), OpenFault>
    requires { IsMeta meta.now }
    ensures settled { D.tells → (files : Files) → IsEmpty files → IsSettledAs (D.history disk.old) files →
        OnOk result (IsSettledAs (D.history disk.new) (only_meta meta.now)) }
    ensures any_moment { D.tells → (files : Files) → IsEmpty files → IsSettledAs (D.history disk.old) files →
        LeavesOnly (D.history disk.old) (D.history disk.new) (IsEither files (only_meta meta.now)) }
    ensures outside { D.tells → IfErr result IsOutside }
    ensures counted { D.faults disk.old ≤ D.faults disk.new }
    ensures cause { IfErr result (λ fault. DiskRises fault (D.faults disk.old) (D.faults disk.new)) }
{
    let bytes = write_meta(alloc, meta)?;
    Ok(settle(alloc, disk, Name::Meta, bytes.as_slice())?)
}

/// Gives an empty disk the record of the job.
pub(crate) fn begin<D: Disk>(
    alloc: Global,
    disk: &mut D,
    wanted: &Wanted<'_>,
) -> Result<Opened, OpenFault>
    requires { CanBeSought wanted.now.partitions wanted.now.parts.now }
    ensures first { D.tells → IfOk result (IsFirst (sought wanted.now)) }
    ensures in_order { IfOk result (IsInOrder (sought wanted.now)) }
    ensures settled { D.tells → (files : Files) → IsEmpty files → IsSettledAs (D.history disk.old) files →
        OnOk result (IsSettledAs (D.history disk.new) (only_meta (first_meta (sought wanted.now)))) }
    ensures any_moment { D.tells → (files : Files) → IsEmpty files → IsSettledAs (D.history disk.old) files →
        LeavesOnly (D.history disk.old) (D.history disk.new) (IsEither files (only_meta (first_meta (sought wanted.now)))) }
    ensures outside { D.tells → IfErr result IsOutside }
    ensures counted { D.faults disk.old ≤ D.faults disk.new }
    ensures cause { IfErr result (λ fault. DiskRises fault (D.faults disk.old) (D.faults disk.new)) }
{
    let meta = first_meta(alloc, wanted)?;
    let keeping = keeping_in(wanted.keeps, meta.partitions);
    let stores = load_stores(alloc, disk, keeping, 0, wanted.finding)?;
    settle_meta(alloc, disk, &meta)?;
    Ok(Opened {
        meta,
        plans: Sequence::new(alloc),
        committed: 0,
        seen: Sequence::new(alloc),
        stores,
        names: Sequence::new(alloc),
    })
}
