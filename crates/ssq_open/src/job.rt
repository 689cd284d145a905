//! The job that a checkpoint is of.

ghost use Rattle.std.specs.Prelude.{◌≡◌, ◌≢◌, ◌↔◌, ◌<◌, ◌≤◌, ℕ, length, slice_index, IfOk, IfErr, IfSome, IfNone, IsTrue, OnOk};
ghost use Rattle.ssq_outside.specs.History.{files_now};
ghost use Rattle.ssq_plans.specs.Records.{IsMetaRecord};
ghost use Rattle.ssq_open.specs.Fault.{DiskRises};
ghost use Rattle.ssq_open.specs.Sought.{IsJob, sought};
ghost use Rattle.ssq_open.specs.Spelled.{IsTheMeta};
ghost use Rattle.ssq_open.specs.Looking.{IsOf, QueryDiffers, MetaRefuses};
ghost use Rattle.ssq_open.specs.Refused.{JobDiffers, JobRefuses};

use crate::fault::OpenFault;
use crate::read::record_in;
use crate::wanted::Wanted;
use ssq_outside::{Disk, Name};
use ssq_plans::Meta;
use ssq_value::Text;
use std::alloc::Global;

fn is_same(one: &Text, other: &Text) -> bool
    ensures { IsTrue result ↔ (one.now ≡ other.now) }
{
    one.as_str() == other.as_str()
}

/// The first place at which the numbers differ.
fn first_other(kept: &[u32], found: &[u32]) -> Option<usize>
    requires { length kept.now ≡ length found.now }
    ensures within { IfSome result (λ at. at < length kept.now) }
    ensures differ { IfSome result (λ at. slice_index kept.now at ≢ slice_index found.now at) }
    ensures before { IfSome result (λ at. (k : ℕ) → k < at → slice_index kept.now k ≡ slice_index found.now k) }
    ensures same { IfNone result (kept.now ≡ found.now) }
{
    for (at, count) in kept.iter().enumerate() {
        if *count != found[at] {
            return Some(at);
        }
    }
    None
}

/// The record of the job, where it is of this query, which has so many streams.
fn same_query(meta: Meta, query: &Text, streams: usize) -> Result<Meta, OpenFault>
    ensures same { IfOk result (λ kept. kept ≡ meta) }
    ensures ours { IfOk result (IsOf query.now streams) }
    ensures differs { IfErr result (QueryDiffers query.now streams meta) }
{
    if !is_same(&meta.query, query) {
        let Meta { query, .. } = meta;
        return Err(OpenFault::OtherQuery { kept: query });
    }
    if meta.parts.len() != streams {
        return Err(OpenFault::Damaged { name: Name::Meta });
    }
    Ok(meta)
}

/// The record of the job that a checkpoint is of, where it is of this query, which has so many streams.
pub(crate) fn kept_query<D: Disk>(
    alloc: Global,
    disk: &mut D,
    query: &Text,
    streams: usize,
) -> Result<Meta, OpenFault>
    ensures kept { D.tells → IfOk result (IsTheMeta (files_now (D.history disk.old))) }
    ensures in_range { IfOk result IsMetaRecord }
    ensures ours { IfOk result (IsOf query.now streams) }
    ensures refused { D.tells → IfErr result (MetaRefuses query.now streams (files_now (D.history disk.old))) }
    ensures same { D.tells → D.history disk.new ≡ D.history disk.old }
    ensures counted { D.faults disk.old ≤ D.faults disk.new }
    ensures cause { IfErr result (λ fault. DiskRises fault (D.faults disk.old) (D.faults disk.new)) }
{
    match record_in(alloc, disk, Name::Meta)? {
        Some(meta) => same_query(meta, query, streams),
        None => Err(OpenFault::Damaged { name: Name::Meta }),
    }
}

/// Checks that the record of the job, which is of the query that is wanted, is of the job that is wanted.
fn check_job(meta: &Meta, wanted: &Wanted<'_>) -> Result<(), OpenFault>
    requires { IsOf wanted.now.query.now (length wanted.now.parts.now) meta.now }
    ensures ok { OnOk result (IsJob (sought wanted.now) meta.now) }
    ensures err { IfErr result (JobDiffers (sought wanted.now) meta.now) }
    ensures not_the_disk { (before now : ℕ) → IfErr result (λ fault. DiskRises fault before now) }
{
    if let Some(asked) = wanted.partitions {
        if asked != meta.partitions {
            return Err(OpenFault::OtherPartitions {
                kept: meta.partitions,
                asked,
            });
        }
    }
    match first_other(meta.parts.as_slice(), wanted.parts) {
        Some(stream) => Err(OpenFault::OtherParts {
            stream,
            kept: meta.parts.as_slice()[stream],
            found: wanted.parts[stream],
        }),
        None => Ok(()),
    }
}

/// The record of the job that a checkpoint is of, where it is the job that is wanted.
pub(crate) fn kept_job<D: Disk>(
    alloc: Global,
    disk: &mut D,
    wanted: &Wanted<'_>,
) -> Result<Meta, OpenFault>
    ensures kept { D.tells → IfOk result (IsTheMeta (files_now (D.history disk.old))) }
    ensures in_range { IfOk result IsMetaRecord }
    ensures job { IfOk result (IsJob (sought wanted.now)) }
    ensures refused { D.tells → IfErr result (JobRefuses (sought wanted.now) (files_now (D.history disk.old))) }
    ensures same { D.tells → D.history disk.new ≡ D.history disk.old }
    ensures counted { D.faults disk.old ≤ D.faults disk.new }
    ensures cause { IfErr result (λ fault. DiskRises fault (D.faults disk.old) (D.faults disk.new)) }
{
    let meta = kept_query(alloc, disk, wanted.query, wanted.parts.len())?;
    check_job(&meta, wanted)?;
    Ok(meta)
}
