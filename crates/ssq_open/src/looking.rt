//! A look at a checkpoint, which changes nothing.

ghost use Rattle.std.specs.Prelude.{◌≡◌, ◌≤◌, ◌^◌, [], length, IfOk, IfErr, IfSome, IfNone};
ghost use Rattle.ssq_outside.specs.Files.{IsEmpty, AreNames};
ghost use Rattle.ssq_outside.specs.History.{files_now};
ghost use Rattle.ssq_open.specs.Fault.{DiskRises};
ghost use Rattle.ssq_core.specs.Course.{Job as JobOf};
ghost use Rattle.ssq_core.specs.Sound.{StandsOrEmpty};
ghost use Rattle.ssq_open.specs.Jobs.{IsWantedJob};
ghost use Rattle.ssq_open.specs.Looking.{begins, query_of, Holds, Denies, IsDenied, IsLookedFor};
ghost use Rattle.ssq_open.specs.Numbers.{HasNumbers};
ghost use Rattle.ssq_open.specs.Opening.{IsOutside};
ghost use Rattle.ssq_open.specs.Sought.{Sought};
ghost use Rattle.ssq_open.specs.Watermarks.{watermarked};

use crate::cuts::begins;
use crate::fault::OpenFault;
use crate::job::kept_query;
use crate::kept::kept_progress;
use crate::listing::{files_of_state, names_in};
use crate::streams::{Watermarked, watermarked_among};
use crate::wanted::Opened;
use ssq_outside::{Disk, Name};
use ssq_shape::Bound;
use ssq_value::Sequence;
use std::alloc::Global;

/// What a checkpoint holds whose files have these names.
fn held<D: Disk>(
    alloc: Global,
    disk: &mut D,
    names: Sequence<Name>,
    bound: &Bound,
    streams: &[Watermarked],
) -> Result<Opened, OpenFault>
    requires few { length bound.now.streams ≤ 2 ^ 32 }
    requires marked { streams.now ≡ watermarked bound.now.streams }
    ensures holds { D.tells → AreNames (files_now (D.history disk.old)) names →
        IfOk result (Holds (query_of bound.now) (files_now (D.history disk.old))) }
    ensures denied { D.tells → AreNames (files_now (D.history disk.old)) names →
        IfErr result (Denies (query_of bound.now) (files_now (D.history disk.old))) }
    ensures numbers { IfOk result (λ found. HasNumbers (watermarked bound.now.streams) (begins found.meta.parts) found) }
    ensures streams { IfOk result (λ found. length found.meta.parts ≡ length bound.now.streams) }
    ensures unloaded { IfOk result (λ found. found.stores ≡ []) }
    ensures same { D.tells → D.history disk.new ≡ D.history disk.old }
    ensures counted { D.faults disk.old ≤ D.faults disk.new }
    ensures cause { IfErr result (λ fault. DiskRises fault (D.faults disk.old) (D.faults disk.new)) }
{
    let meta = kept_query(alloc, disk, &bound.text, bound.streams.len())?;
    let first = begins(alloc, meta.parts.as_slice())?;
    let epochs = kept_progress(alloc, disk, names.as_slice(), streams, first.as_slice())?;
    Ok(Opened {
        meta,
        plans: epochs.plans,
        committed: epochs.committed,
        seen: epochs.seen,
        stores: Sequence::new(alloc),
        names: files_of_state(names),
    })
}

/// Looks at the checkpoint of a query and says what it holds: nothing where no file is there. Nothing is
/// changed, and no log is asked.
///
/// The checks are those of [`open`](crate::open) on the job's record, the plans and the commits, in the same order: the record is
/// there and canonical (`Damaged`); it is of this query (`OtherQuery`) and has one number of parts for each stream (`Damaged`); and
/// the plans, the commits and the plans' watermarks are as they have to be, with the parts that the record keeps (`Damaged`). No other file is asked: a
/// sink file or a file of the state may be missing or unexpected, and no state is loaded.
pub fn look<D: Disk>(
    alloc: Global,
    disk: &mut D,
    bound: &Bound,
) -> Result<Option<Opened>, OpenFault>
    requires { length bound.now.streams ≤ 2 ^ 32 }
    ensures found { D.tells → IfOk result (λ read. IfSome read (Holds (query_of bound.now) (files_now (D.history disk.old)))) }
    ensures none { D.tells → IfOk result (λ read. IfNone read (IsEmpty (files_now (D.history disk.old)))) }
    ensures denied { D.tells → IfErr result (IsDenied (query_of bound.now) (files_now (D.history disk.old))) }

    // On any disk: what is found is in order.
    ensures numbers { IfOk result (λ read. IfSome read (λ found. HasNumbers (watermarked bound.now.streams) (begins found.meta.parts) found)) }
    ensures streams { IfOk result (λ read. IfSome read (λ found. length found.meta.parts ≡ length bound.now.streams)) }
    ensures unloaded { IfOk result (λ read. IfSome read (λ found. found.stores ≡ [])) }

    // Where the checkpoint stands for a job of the query, or is empty, nothing but the outside denies it.
    ensures outside { D.tells → (s : Sought) (job : JobOf) → IsLookedFor (query_of bound.now) s → IsWantedJob s job →
        StandsOrEmpty job (files_now (D.history disk.old)) → IfErr result IsOutside }
    ensures same { D.tells → D.history disk.new ≡ D.history disk.old }

    // A fault of the disk is answered only where it was counted.
    ensures counted { D.faults disk.old ≤ D.faults disk.new }
    ensures cause { IfErr result (λ fault. DiskRises fault (D.faults disk.old) (D.faults disk.new)) }
{
    let streams = watermarked_among(alloc, bound.streams.as_slice())?;
    match names_in(alloc, disk)? {
        Some(names) => Ok(Some(held(alloc, disk, names, bound, streams.as_slice())?)),
        None => Ok(None),
    }
}
