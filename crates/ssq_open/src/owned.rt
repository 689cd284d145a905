//! The names of a query's own checkpoint.

ghost use Rattle.std.specs.Prelude.{◌≡◌, ◌≤◌, IfOk, IfErr, IfSome, IfNone};
ghost use Rattle.ssq_outside.specs.Files.{IsEmpty, AreNames};
ghost use Rattle.ssq_outside.specs.History.{files_now};
ghost use Rattle.ssq_core.specs.Course.{Job as JobOf};
ghost use Rattle.ssq_core.specs.Sound.{StandsOrEmpty};
ghost use Rattle.ssq_open.specs.Fault.{DiskRises};
ghost use Rattle.ssq_open.specs.Jobs.{IsWantedJob};
ghost use Rattle.ssq_open.specs.Looking.{query_of, HasRecordOf, IsLookedFor, IsRecordDenied};
ghost use Rattle.ssq_open.specs.Opening.{IsOutside};
ghost use Rattle.ssq_open.specs.Sought.{Sought};

use crate::fault::OpenFault;
use crate::job::kept_query;
use crate::listing::names_in;
use ssq_outside::{Disk, Name};
use ssq_shape::Bound;
use ssq_value::Sequence;
use std::alloc::Global;

/// The names of a checkpoint's files, where its record is there, canonical, and of this query: none where no file is there. Nothing is changed, and
/// no other file is read.
///
/// The record's checks are those of [`open`](crate::open): it is there and canonical (`Damaged`), it is of this query (`OtherQuery`), and has one
/// number of parts for each stream (`Damaged`).
pub fn own_names<D: Disk>(
    alloc: Global,
    disk: &mut D,
    bound: &Bound,
) -> Result<Option<Sequence<Name>>, OpenFault>
    ensures found { D.tells → IfOk result (λ read. IfSome read (λ names. AreNames (files_now (D.history disk.old)) names × HasRecordOf (query_of bound.now) (files_now (D.history disk.old)))) }
    ensures none { D.tells → IfOk result (λ read. IfNone read (IsEmpty (files_now (D.history disk.old)))) }
    ensures denied { D.tells → IfErr result (IsRecordDenied (query_of bound.now) (files_now (D.history disk.old))) }

    // Where the checkpoint stands for a job of the query, or is empty, nothing but the outside denies it.
    ensures outside { D.tells → (s : Sought) (job : JobOf) → IsLookedFor (query_of bound.now) s → IsWantedJob s job →
        StandsOrEmpty job (files_now (D.history disk.old)) → IfErr result IsOutside }
    ensures same { D.tells → D.history disk.new ≡ D.history disk.old }

    // A fault of the disk is answered only where it was counted.
    ensures counted { D.faults disk.old ≤ D.faults disk.new }
    ensures cause { IfErr result (λ fault. DiskRises fault (D.faults disk.old) (D.faults disk.new)) }
{
    match names_in(alloc, disk)? {
        Some(names) => {
            kept_query(alloc, disk, &bound.text, bound.streams.len())?;
            Ok(Some(names))
        }
        None => Ok(None),
    }
}
