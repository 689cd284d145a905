//! The out task: the rows of all partitions as the text of the epoch's sink file, and the epoch's commit.

ghost use Rattle.std.specs.Prelude.{◌≡◌, ◌≤◌, ◌^◌, length, OnOk, IfOk, IfErr, All};
ghost use Rattle.ssq_time.specs.Time.{IsStampTime};
ghost use Rattle.ssq_value.specs.Kind.{IfTime};
ghost use Rattle.ssq_plans.specs.Records.{commit_text};
ghost use Rattle.ssq_sink.specs.Sink.{sink_text};
ghost use Rattle.ssq_task.specs.declared.out.GatherFault.TheVariants.{DiskFault};
ghost use Rattle.ssq_task.specs.declared.stages.Aside.TheVariants.{Open};
ghost use Rattle.ssq_task.specs.Lists.{joined_vecs};
ghost use Rattle.ssq_task.specs.Committing.{commit_at};
ghost use Rattle.ssq_task.specs.Gathering.{HasWritten, WriteCause, IsSealed, SealCause, IsGathered};

use crate::commit::commit_record;
use crate::lists::joined;
use crate::stages::{Aside, Remnant, SealedEpoch, Stages};
use ssq_meaning::View;
use ssq_outside::{Stage, StageError};
use ssq_shape::Bound;
use ssq_sink::epoch_text;
use ssq_value::Row;
use ssq_water::Seen;
use std::alloc::{AllocError, Global};
use thiserror::Error;

/// Why an out task sealed nothing, or not both files.
#[derive(Clone, Copy, Debug, Error)]
pub enum GatherFault {
    /// A file aside failed.
    #[error("the disk failed")]
    DiskFault,
    /// Memory ran out.
    #[error("out of memory")]
    NoMemory,
}

impl From<AllocError> for GatherFault {
    ghost use Rattle.std.specs.Prelude.{◌≡◌};
    ghost use Rattle.ssq_task.specs.declared.out.GatherFault.TheVariants.{NoMemory};

    ghost from_gives = { λ _ fault. fault ≡ NoMemory };

    fn from(_: AllocError) -> GatherFault {
        GatherFault::NoMemory
    }
}

impl From<StageError> for GatherFault {
    ghost use Rattle.std.specs.Prelude.{◌≡◌};
    ghost use Rattle.ssq_task.specs.Gathering.{fault_of_stage};

    ghost from_gives = { λ error fault. fault ≡ fault_of_stage error };

    fn from(error: StageError) -> GatherFault {
        match error {
            StageError::Fault => GatherFault::DiskFault,
            StageError::NoMemory => GatherFault::NoMemory,
        }
    }
}

/// Writes the rows and the commit of an epoch.
#[derive(Drop)]
pub struct OutTask<'a, S: Stage> {
    pub view: View<'a>,
    pub epoch: u32,
    /// The greatest event times over all epochs up to and with this one.
    pub seen: Seen,
    /// The rows that the epoch shows: those of each partition, in the order of partitions.
    pub rows: Vec<Vec<Row>>,
    /// Two files aside, in which nothing is written yet.
    pub stages: Stages<S>,
}

/// The result of an out task: the task's view, epoch and greatest times, and both files sealed, or why not and what is left of them.
#[derive(Drop)]
pub struct Gathered<'a, S: Stage> {
    pub view: View<'a>,
    pub epoch: u32,
    pub seen: Seen,
    pub outcome: Result<SealedEpoch<S::Sealed>, (GatherFault, Remnant<S, S::Sealed>)>,
}

/// Writes the text of the rows and that of the commit, each to its file, and tells how many rows there are.
fn write_both<S: Stage>(
    alloc: Global,
    bound: &Bound,
    epoch: u32,
    seen: &Seen,
    rows: Vec<Vec<Row>>,
    stages: &mut Stages<S>,
) -> Result<u64, GatherFault>
    requires printable { All (All (IfTime IsStampTime)) (joined_vecs rows.items) }
    requires each { length seen.now ≡ length bound.now.streams }
    requires few { length bound.now.streams ≤ 2 ^ 32 }
    ensures written { S.tells → OnOk result
        (HasWritten S.written (sink_text bound.now (joined_vecs rows.items)) (commit_text (commit_at bound.now epoch seen.now)) stages.old stages.new) }
    ensures count { IfOk result (λ count. count ≡ length (joined_vecs rows.items)) }
    ensures counted { (S.faults stages.old.rows ≤ S.faults stages.new.rows) × (S.faults stages.old.commit ≤ S.faults stages.new.commit) }
    ensures cause { IfErr result (λ fault. WriteCause S.faults fault stages.old stages.new) }
{
    let rows = joined(alloc, rows)?;
    let count = rows.len() as u64;
    let text = epoch_text(alloc, bound, rows)?;
    stages.rows.write(text.as_bytes())?;
    let record = commit_record(alloc, bound, epoch, seen)?;
    stages.commit.write(record.as_slice())?;
    Ok(count)
}

/// Seals both files, or tells that one failed.
fn seal_both<S: Stage>(
    stages: Stages<S>,
    count: u64,
) -> Result<SealedEpoch<S::Sealed>, (GatherFault, Remnant<S, S::Sealed>)>
    ensures sealed { S.tells → IfOk result (IsSealed S.written S.sealed stages) }
    ensures count { IfOk result (λ files. files.count ≡ count) }
    ensures cause { IfErr result (λ failed. (failed.0 ≡ DiskFault) × SealCause S.faults stages failed.1) }
{
    let Stages { rows, commit } = stages;
    let rows = match rows.sync() {
        Ok(file) => file,
        Err(rows) => {
            let left = Remnant {
                rows: Aside::Open(rows),
                commit,
            };
            return Err((GatherFault::DiskFault, left));
        }
    };
    match commit.sync() {
        Ok(commit) => Ok(SealedEpoch {
            rows,
            commit,
            count,
        }),
        Err(commit) => {
            let left = Remnant {
                rows: Aside::Sealed(rows),
                commit,
            };
            Err((GatherFault::DiskFault, left))
        }
    }
}

/// What is left of files that are not sealed.
fn remnant<S: Stage>(stages: Stages<S>) -> Remnant<S, S::Sealed>
    ensures { (result.rows ≡ Open stages.rows) × (result.commit ≡ stages.commit) }
{
    let Stages { rows, commit } = stages;
    Remnant {
        rows: Aside::Open(rows),
        commit,
    }
}

/// Sorts the rows and writes them as the text of the epoch's sink file, writes the epoch's commit, and seals both.
///
/// The rows have the columns of SELECT and times of the years 0001 to 9999. There are as many greatest times as the query has streams,
/// and these are at most 2^32. Where a file failed or memory ran out, this is told with what is left of the files.
pub fn gather<'a, S: Stage>(alloc: Global, task: OutTask<'a, S>) -> Gathered<'a, S>
    requires printable { All (All (IfTime IsStampTime)) (joined_vecs task.rows.items) }
    requires each { length task.seen ≡ length task.view.bound.now.streams }
    requires few { length task.view.bound.now.streams ≤ 2 ^ 32 }
    ensures { IsGathered S.tells S.written S.sealed S.faults task.entry result }
{
    let OutTask {
        view,
        epoch,
        seen,
        rows,
        mut stages,
    } = task;
    let outcome = match write_both(alloc, view.bound, epoch, &seen, rows, &mut stages) {
        Ok(count) => seal_both(stages, count),
        Err(fault) => Err((fault, remnant(stages))),
    };
    Gathered {
        view,
        epoch,
        seen,
        outcome,
    }
}
