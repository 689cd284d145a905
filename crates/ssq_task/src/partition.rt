//! The reduce task: the rows of a partition as the epoch shows them, and what the epoch changes in what the partition keeps.

ghost use Rattle.std.specs.Prelude.{◌≡◌, ◌++◌, None, All, IfSome, IfOk, IfErr, OnOk};
ghost use Rattle.ssq_meaning.specs.Fit.{IsFitRow};
ghost use Rattle.ssq_meaning.specs.Windows.{HasWindows};
ghost use Rattle.ssq_store.specs.Loaded.{count_to};
ghost use Rattle.ssq_task.specs.declared.partition.ReduceFault.TheVariants.{NoMemory};
ghost use Rattle.ssq_task.specs.Reducing.{IsReduced, values_of};
ghost use Rattle.ssq_task.specs.Lists.{joined_vecs};

use crate::version::next_version;
use ssq_meaning::{FedRow, View};
use ssq_outside::Stage;
use ssq_step::{Closing, StepFault};
use ssq_store::{SealFault, Store};
use ssq_value::Row;
use std::alloc::{AllocError, Global};
use thiserror::Error;

/// Why a reduce task brings no rows.
#[derive(Debug, Drop, Error)]
pub enum ReduceFault {
    /// The least key of the partition on which what the epoch shows is outside of its type's range.
    #[error("a key's result is outside of its type's range")]
    Overflow { key: Row },
    /// A file aside failed.
    #[error("the disk failed")]
    DiskFault,
    /// Memory ran out.
    #[error("out of memory")]
    NoMemory,
}

impl From<AllocError> for ReduceFault {
    ghost use Rattle.std.specs.Prelude.{◌≡◌};
    ghost use Rattle.ssq_task.specs.declared.partition.ReduceFault.TheVariants.{NoMemory};

    ghost from_gives = { λ _ fault. fault ≡ NoMemory };

    fn from(_: AllocError) -> ReduceFault {
        ReduceFault::NoMemory
    }
}

impl From<StepFault> for ReduceFault {
    ghost use Rattle.std.specs.Prelude.{◌≡◌};
    ghost use Rattle.ssq_task.specs.Reducing.{fault_of_step};

    ghost from_gives = { λ cause fault. fault ≡ fault_of_step cause };

    fn from(fault: StepFault) -> ReduceFault {
        match fault {
            StepFault::Overflow { key } => ReduceFault::Overflow { key },
            StepFault::NoMemory => ReduceFault::NoMemory,
        }
    }
}

impl From<SealFault> for ReduceFault {
    ghost use Rattle.std.specs.Prelude.{◌≡◌};
    ghost use Rattle.ssq_task.specs.Reducing.{fault_of_seal};

    ghost from_gives = { λ cause fault. fault ≡ fault_of_seal cause };

    fn from(fault: SealFault) -> ReduceFault {
        match fault {
            SealFault::DiskFault => ReduceFault::DiskFault,
            SealFault::NoMemory => ReduceFault::NoMemory,
        }
    }
}

/// What a partition of a query that keeps state goes on from.
#[derive(Drop)]
pub struct Held {
    /// What the partition keeps, and its version.
    pub store: Store,
    /// Its keys by the times at which they close: those of what the store keeps.
    pub closing: Closing,
}

/// What a partition of a query that keeps state brings to an epoch.
#[derive(Drop)]
pub struct State<S> {
    /// What the partition keeps, at the version before the epoch's.
    pub held: Held,
    /// The file aside for what the epoch changes of it, in which nothing is written yet.
    pub stage: S,
}

/// Takes the rows of a partition to those that the epoch shows, and what it keeps to the epoch's version.
#[derive(Drop)]
pub struct ReduceTask<'a, S: Stage> {
    pub view: View<'a>,
    pub epoch: u32,
    /// The partition, from 0.
    pub partition: u32,
    /// The watermark of the epoch, in microseconds since 1970.
    pub watermark: Option<i64>,
    /// The rows of the partition: those of each part, in the order of streams and parts, each in the order of lines.
    pub rows: Vec<Vec<FedRow>>,
    /// What the partition keeps: none of a query that keeps nothing.
    pub state: Option<State<S>>,
}

/// What an epoch brings of a partition.
#[derive(Drop)]
pub struct ReducedRows<F> {
    /// The rows that the epoch shows of the partition, in no order.
    pub rows: Vec<Row>,
    /// What the epoch changes in what the partition keeps, as a sealed file: none of a query that keeps nothing.
    pub delta: Option<F>,
}

/// The result of a reduce task: the task's own fields, and what came of it.
#[derive(Drop)]
pub struct Reduced<'a, S: Stage> {
    pub view: View<'a>,
    pub epoch: u32,
    pub partition: u32,
    pub watermark: Option<i64>,
    /// What the partition keeps: at the epoch's version, or after a fault as it was. After a fault its index is of no use.
    pub held: Option<Held>,
    /// What the epoch brings of the partition; or why nothing, with the file aside where it is not sealed.
    pub outcome: Result<ReducedRows<S::Sealed>, (ReduceFault, Option<S>)>,
}

/// Puts the values of each row of a part after those that are there.
fn push_values(values: &mut Vec<Row>, rows: Vec<FedRow>) -> Result<(), AllocError>
    ensures { OnOk result (values.new.items ≡ values.old.items ++ values_of rows.items) }
{
    values.reserve(rows.len())?;
    for row in rows {
        values.push(row.into_values())?;
    }
    Ok(())
}

/// The values of each row, part by part.
fn values_of_all(alloc: Global, parts: Vec<Vec<FedRow>>) -> Result<Vec<Row>, AllocError>
    ensures { IfOk result (λ values. values.items ≡ values_of (joined_vecs parts.items)) }
{
    let mut values = Vec::new(alloc);
    for rows in parts {
        push_values(&mut values, rows)?;
    }
    Ok(values)
}

/// Shows each row as it is, of a query that keeps nothing.
fn show_all<S: Stage>(
    alloc: Global,
    parts: Vec<Vec<FedRow>>,
) -> Result<ReducedRows<S::Sealed>, (ReduceFault, Option<S>)>
    ensures rows { IfOk result (λ brought. brought.rows.items ≡ values_of (joined_vecs parts.items)) }
    ensures delta { IfOk result (λ brought. brought.delta ≡ None) }
    ensures cause { IfErr result (λ failed. (failed.0 ≡ NoMemory) × (failed.1 ≡ None)) }
{
    match values_of_all(alloc, parts) {
        Ok(rows) => Ok(ReducedRows { rows, delta: None }),
        Err(_) => Err((ReduceFault::NoMemory, None)),
    }
}

/// Shows the rows of the task's partition, and takes what it keeps to the epoch's version. A query that keeps nothing shows each row as it is.
/// Any other leaves late rows out, steps its operator, and seals what changes as the delta of the epoch's version. No key is read but those that
/// have rows (of a join those that begin alike) and those that close, or of groups in Complete all, since all are shown.
///
/// The store is at the version before the epoch's, a state can hold what the rows hold, and the query can have its windows. It fails on a
/// key whose result is outside of its type's range, on a file aside that failed, or where memory ran out: what the store keeps is then as it was,
/// and the index beside it is of no use.
pub fn reduce<'a, S: Stage>(alloc: Global, task: ReduceTask<'a, S>) -> Reduced<'a, S>
    requires windows { HasWindows task.view.bound.now }
    requires fit { All IsFitRow (joined_vecs task.rows.items) }
    requires version { IfSome task.state (λ state. count_to state.held.store.version ≡ task.epoch) }
    ensures { IsReduced S.tells S.written S.sealed S.faults task.entry result }
{
    let ReduceTask {
        view,
        epoch,
        partition,
        watermark,
        rows,
        state,
    } = task;
    let (held, outcome) = match state {
        None => (None, show_all(alloc, rows)),
        Some(state) => {
            let (held, outcome) = next_version(alloc, view.bound, epoch, watermark, rows, state);
            (Some(held), outcome)
        }
    };
    Reduced {
        view,
        epoch,
        partition,
        watermark,
        held,
        outcome,
    }
}
