//! The opening of a checkpoint.

ghost use Rattle.std.specs.Prelude.{◌≡◌, ◌≤◌, ◌^◌, None, All, length, IfOk, IfErr, OnOk, OnErr};
ghost use Rattle.std.specs.Option.{ForSome};
ghost use Rattle.ssq_outside.specs.Files.{AreNames, IsEmpty};
ghost use Rattle.ssq_outside.specs.History.{had_now, files_now, LeavesNow, LeavesOnly};
ghost use Rattle.ssq_open.specs.Fault.{DiskRises};
ghost use Rattle.ssq_open.specs.Opening.{CanBeSought, Finds, first_meta, first_short, IsOutside, Passes, Refuses, IsOpen, IsRefused, IsImageOpening, SyncedSince, IsBegun, IsOpening};
ghost use Rattle.ssq_open.specs.Epochs.{starts, last_ends};
ghost use Rattle.ssq_open.specs.Numbers.{HasNumbers, IsCheckedInOrder, IsInOrder};
ghost use Rattle.ssq_open.specs.Sought.{sought};
ghost use Rattle.ssq_open.specs.Stateful.{keeping_of};
ghost use Rattle.ssq_open.specs.Stores.{AreStores};
ghost use Rattle.ssq_open.specs.Lens.{counts_of, found_from, IsFew, CanBeAsked, asked};
ghost use Rattle.ssq_open.specs.Watermarks.{watermarked};
ghost use Rattle.ssq_open.specs.Jobs.{IsWantedJob, IsJobs, IsDeskOf, States, AreStates, HoldStates};
ghost use Rattle.ssq_core.specs.Course.{Cuts, Job as JobOf};
ghost use Rattle.ssq_core.specs.Sound.{StandsOrEmpty};

use crate::begin::begin;
use crate::cuts::starts;
use crate::fault::OpenFault;
use crate::job::kept_job;
use crate::kept::{Epochs, kept_epochs};
use crate::lengths::check_ends;
use crate::lens::{counts_of, found_in};
use crate::listing::{files_of_state, names_in};
use crate::plans::last_ends;
use crate::stateful::{keeping_in, keeps_state};
use crate::stores::{finding_of, load_stores};
use crate::streams::{Watermarked, watermarked_among};
use crate::wanted::{Lens, Opened, Wanted};
use ssq_outside::{Disk, Name};
use ssq_plans::{Meta, PartEnd};
use ssq_shape::Bound;
use ssq_store::{loading_is_exact, sealed_files_are_true};
use ssq_value::Sequence;
use std::alloc::{AllocError, Global};

/// What a checkpoint holds beside the states of its partitions.
#[derive(Drop)]
struct Checked {
    meta: Meta,
    epochs: Epochs,
}

/// What a checkpoint holds whose files have these names, beside the states of its partitions.
fn check<D: Disk>(
    alloc: Global,
    disk: &mut D,
    names: &[Name],
    wanted: &Wanted<'_>,
) -> Result<Checked, OpenFault>
    ensures finds { D.tells → AreNames (files_now (D.history disk.old)) names.now →
        IfOk result (λ found. Finds (sought wanted.now) (files_now (D.history disk.old)) found.meta found.epochs.plans found.epochs.committed found.epochs.seen) }
    ensures in_order { IfOk result (λ found. IsCheckedInOrder (sought wanted.now) found.meta found.epochs) }
    ensures refused { D.tells → AreNames (files_now (D.history disk.old)) names.now →
        IfErr result (Refuses (sought wanted.now) (files_now (D.history disk.old))) }
    ensures same { D.tells → D.history disk.new ≡ D.history disk.old }
    ensures counted { D.faults disk.old ≤ D.faults disk.new }
    ensures cause { IfErr result (λ fault. DiskRises fault (D.faults disk.old) (D.faults disk.new)) }
{
    let meta = kept_job(alloc, disk, wanted)?;
    let first = starts(alloc, wanted.found)?;
    let epochs = kept_epochs(
        alloc,
        disk,
        names,
        wanted.streams,
        first.as_slice(),
        keeping_in(wanted.keeps, meta.partitions),
    )?;
    check_ends(
        last_ends(first.as_slice(), epochs.plans.as_slice()),
        wanted.found,
    )?;
    Ok(Checked { meta, epochs })
}

/// What a checkpoint holds whose files have these names.
fn kept<D: Disk>(
    alloc: Global,
    disk: &mut D,
    names: Sequence<Name>,
    wanted: &Wanted<'_>,
) -> Result<Opened, OpenFault>
    ensures passes { D.tells → AreNames (files_now (D.history disk.old)) names →
        IfOk result (Passes (sought wanted.now) (files_now (D.history disk.old))) }
    ensures in_order { IfOk result (IsInOrder (sought wanted.now)) }
    ensures refused { D.tells → AreNames (files_now (D.history disk.old)) names →
        IfErr result (Refuses (sought wanted.now) (files_now (D.history disk.old))) }
    ensures same { D.tells → D.history disk.new ≡ D.history disk.old }
    ensures counted { D.faults disk.old ≤ D.faults disk.new }
    ensures cause { IfErr result (λ fault. DiskRises fault (D.faults disk.old) (D.faults disk.new)) }
{
    let Checked { meta, epochs } = check(alloc, disk, names.as_slice(), wanted)?;
    let keeping = keeping_in(wanted.keeps, meta.partitions);
    let stores = load_stores(alloc, disk, keeping, epochs.committed, wanted.finding)?;
    Ok(Opened {
        meta,
        plans: epochs.plans,
        committed: epochs.committed,
        seen: epochs.seen,
        stores,
        names: files_of_state(names),
    })
}

/// Opens the checkpoint of the job that is wanted.
pub(crate) fn open_wanted<D: Disk>(
    alloc: Global,
    disk: &mut D,
    wanted: &Wanted<'_>,
) -> Result<Opened, OpenFault>
    requires { CanBeSought wanted.now.partitions wanted.now.parts.now }
    ensures in_order { IfOk result (IsInOrder (sought wanted.now)) }
    ensures opened { D.tells → IfOk result (IsOpen (sought wanted.now)
        (files_now (D.history disk.old)) (D.history disk.new)) }
    ensures refused { D.tells → IfErr result (IsRefused (sought wanted.now)
        (files_now (D.history disk.old)) (files_now (D.history disk.new))) }
    ensures any_moment { D.tells → LeavesOnly (D.history disk.old) (D.history disk.new)
        (IsImageOpening (sought wanted.now) (had_now (D.history disk.old))) }
    ensures synced { D.tells → OnOk result (SyncedSince (D.history disk.old) (D.history disk.new)
        (IsBegun (sought wanted.now) (files_now (D.history disk.old)))) }
    ensures unfinished { D.tells → OnErr result (IsOpening (sought wanted.now)
        (D.history disk.old) (D.history disk.new)) }
    ensures counted { D.faults disk.old ≤ D.faults disk.new }
    ensures cause { IfErr result (λ fault. DiskRises fault (D.faults disk.old) (D.faults disk.new)) }
{
    disk.sync_names()?;
    match names_in(alloc, disk)? {
        Some(names) => kept(alloc, disk, names, wanted),
        None => begin(alloc, disk, wanted),
    }
}

/// What an opening asks of the query and the logs.
#[derive(Drop)]
struct Asked {
    streams: Sequence<Watermarked>,
    parts: Sequence<u32>,
    found: Sequence<PartEnd>,
}

fn asked_of(alloc: Global, bound: &Bound, lens: &Lens) -> Result<Asked, AllocError>
    requires few { All IsFew lens.now.streams }
    requires each { length lens.now.streams ≡ length bound.now.streams }
    requires fits { length bound.now.streams ≤ 2 ^ 32 }
    ensures streams { IfOk result (λ asked. asked.streams ≡ watermarked bound.now.streams) }
    ensures parts { IfOk result (λ asked. asked.parts ≡ counts_of lens.now.streams) }
    ensures found { IfOk result (λ asked. asked.found ≡ found_from 0 lens.now.streams) }
{
    let streams = watermarked_among(alloc, bound.streams.as_slice())?;
    let parts = counts_of(alloc, lens.streams.as_slice())?;
    let found = found_in(alloc, lens.streams.as_slice())?;
    Ok(Asked {
        streams,
        parts,
        found,
    })
}

/// Opens the checkpoint of a query and says what it holds. Where no file is there, the checkpoint is begun: it gets the job's record
/// alone, with one partition where none are asked for.
///
/// The names are synced first. Then each check comes where those before it are met: the job's record is there and canonical
/// (`Damaged`); it is of this query (`OtherQuery`) and has one number of parts for each stream (`Damaged`), the partitions that
/// are asked for (`OtherPartitions`), and the parts that are found (`OtherParts`); the plans are there from epoch 0 on without a
/// gap, canonical, each with its own number below 4294967295 and one end for each part in order, and no end falls (`Damaged`, as
/// for all files that follow); the commits are there for all planned epochs but the last, and for that or not, canonical, each
/// with its own number and one line for each watermarked stream in order; each plan has the watermark that the commit before it
/// gives; the sink files of the committed epochs are there, and no other but that of the epoch which is planned and not committed;
/// the files of the state are of partitions that keep state, and of planned epochs; of each part as many lines are found as are
/// planned (`LogShort`); and the state of each partition that keeps state can be loaded after the committed epochs. `Damaged` names the
/// first file in this order, within a step by number, and of the states by partition, within one as a store loads it.
///
/// A query that groups, deduplicates or joins keeps state in all partitions, and any other in none. Each plan and commit is read once, in order,
/// and so is each file that a state is loaded from; no sink file and no log is read.
pub fn open<D: Disk>(
    alloc: Global,
    disk: &mut D,
    bound: &Bound,
    partitions: Option<u32>,
    lens: &Lens,
) -> Result<Opened, OpenFault>
    requires { CanBeAsked bound.now partitions lens.now }

    // On any disk: what is found is in order.
    ensures numbers { IfOk result (HasNumbers (watermarked bound.now.streams) (starts (found_from 0 lens.now.streams))) }
    ensures job { IfOk result (λ found. (found.meta.parts ≡ counts_of lens.now.streams) × (found.meta.query ≡ bound.now.text) × (1 ≤ found.meta.partitions) × (found.meta.partitions ≤ 64) × ForSome partitions (λ count. found.meta.partitions ≡ count)) }
    ensures long { IfOk result (λ found. first_short (last_ends (starts (found_from 0 lens.now.streams)) found.plans) (found_from 0 lens.now.streams) ≡ None) }
    ensures stores { IfOk result (λ found. AreStores (keeping_of bound.now.shape found.meta.partitions) found.committed found.stores) }

    // What is found is settled, and no crash can leave anything else.
    ensures opened { D.tells → IfOk result (IsOpen (asked bound.now partitions lens.now)
        (files_now (D.history disk.old)) (D.history disk.new)) }
    ensures refused { D.tells → IfErr result (IsRefused (asked bound.now partitions lens.now)
        (files_now (D.history disk.old)) (files_now (D.history disk.new))) }

    // A crash at any moment leaves what it might have left before, or, of an empty checkpoint, the job's record alone.
    ensures any_moment { D.tells → LeavesOnly (D.history disk.old) (D.history disk.new)
        (IsImageOpening (asked bound.now partitions lens.now) (had_now (D.history disk.old))) }

    // Once the names are synced a crash leaves the files as they were, or, of an empty checkpoint, the job's record alone.
    ensures synced { D.tells → OnOk result (SyncedSince (D.history disk.old) (D.history disk.new)
        (IsBegun (asked bound.now partitions lens.now) (files_now (D.history disk.old)))) }
    ensures unfinished { D.tells → OnErr result (IsOpening (asked bound.now partitions lens.now)
        (D.history disk.old) (D.history disk.new)) }

    // Where the checkpoint stands for the job, or is empty and gets the job's record, a desk opens on what is found, and the stores hold the
    // job's states. Nothing but the outside refuses it where also of no part fewer lines are found than are planned.
    ensures desk { D.tells → (job : JobOf) → IsWantedJob (asked bound.now partitions lens.now) job →
        (IsEmpty (files_now (D.history disk.old)) → (cuts : Cuts) → (job.course cuts).meta ≡ first_meta (asked bound.now partitions lens.now)) →
        StandsOrEmpty job (files_now (D.history disk.old)) → IfOk result (IsDeskOf (asked bound.now partitions lens.now) job (files_now (D.history disk.new))) }
    ensures states { D.tells → (job : JobOf) (states : States) → IsWantedJob (asked bound.now partitions lens.now) job → AreStates job states →
        StandsOrEmpty job (files_now (D.history disk.old)) → IfOk result (HoldStates (asked bound.now partitions lens.now) states) }
    ensures outside { D.tells → (job : JobOf) (states : States) → IsWantedJob (asked bound.now partitions lens.now) job → AreStates job states →
        IsJobs (asked bound.now partitions lens.now) job (files_now (D.history disk.old)) → IfErr result IsOutside }

    // Where each image stands for the job or stands empty, so does each image of each moment.
    ensures images { D.tells → (job : JobOf) → IsWantedJob (asked bound.now partitions lens.now) job →
        (IsEmpty (files_now (D.history disk.old)) → (cuts : Cuts) → (job.course cuts).meta ≡ first_meta (asked bound.now partitions lens.now)) →
        LeavesNow (D.history disk.old) (StandsOrEmpty job) → LeavesOnly (D.history disk.old) (D.history disk.new) (StandsOrEmpty job) }

    // A fault of the disk is answered only where it was counted.
    ensures counted { D.faults disk.old ≤ D.faults disk.new }
    ensures cause { IfErr result (λ fault. DiskRises fault (D.faults disk.old) (D.faults disk.new)) }
{
    loading_is_exact();
    sealed_files_are_true();
    let asked = asked_of(alloc, bound, lens)?;
    let wanted = Wanted {
        query: &bound.text,
        streams: asked.streams.as_slice(),
        keeps: keeps_state(&bound.shape),
        finding: finding_of(bound),
        partitions,
        parts: asked.parts.as_slice(),
        found: asked.found.as_slice(),
    };
    open_wanted(alloc, disk, &wanted)
}
