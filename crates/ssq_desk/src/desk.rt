//! The desk's type.

use crate::round::Round;
use crate::told::Told;
use ssq_feed::FedRows;
use ssq_ledger::Ledger;
use ssq_meaning::{FedRow, View};
use ssq_outside::{Disk, Log, Stage};
use ssq_plans::{Meta, Plan, SeenBy};
use ssq_step::Closing;
use ssq_store::Store;
use ssq_task::{Held, Stages};
use ssq_value::{Row, Sequence};
use ssq_water::Seen;
use std::alloc::Global;
use std::marker::Model;

/// A part of a stream, with its log and what was fed of it.
#[derive(Drop)]
pub(crate) struct PartLog<L: Log> {
    pub(crate) stream: u32,
    pub(crate) part: u32,
    /// The offset of the first line that the epoch that runs has of it.
    pub(crate) from: u64,
    /// Its log, where no worker has it.
    pub(crate) log: Option<L>,
    /// What its map task brought.
    pub(crate) fed: Option<FedRows>,
}

/// A partition of the epoch that runs.
#[derive(Drop)]
pub(crate) struct Share<S> {
    /// What its reduce task is to take: room for one bucket from each part.
    pub(crate) buckets: Vec<Vec<FedRow>>,
    /// The file aside that its reduce task is to take, where the partition keeps state.
    pub(crate) stage: Option<S>,
    /// What its reduce task brought.
    pub(crate) rows: Vec<Row>,
    /// The least key of the partition that overflows, where its reduce task told of one.
    pub(crate) key: Option<Row>,
}

/// What the out task of the epoch that runs is to take.
#[derive(Drop)]
pub(crate) struct OutWork<S: Stage> {
    /// Room for the rows of each partition.
    pub(crate) rows: Vec<Vec<Row>>,
    /// The greatest times over the epochs before.
    pub(crate) seen: Seen,
    pub(crate) stages: Stages<S>,
}

/// The commit of the epoch that runs, to be published.
#[derive(Drop)]
pub(crate) struct Pending<F: Drop> {
    pub(crate) commit: F,
    /// The greatest times over the epochs up to this one.
    pub(crate) seen: Seen,
    /// How many rows the epoch has.
    pub(crate) count: u64,
}

/// What is kept for the end of the round.
#[derive(Drop)]
pub(crate) struct Kept<L: Log> {
    /// The record of the job, as it was opened.
    pub(crate) meta: Meta,
    /// Room for the greatest times of the watermarked streams.
    pub(crate) lines: Vec<SeenBy>,
    /// Room for the logs.
    pub(crate) logs: Vec<L>,
    /// Room for the stores of the partitions that keep state.
    pub(crate) stores: Vec<Store>,
    /// Room for their indexes.
    pub(crate) closings: Vec<Closing>,
}

/// What a desk holds beside the ledger.
#[derive(Drop)]
pub(crate) struct Load<'a, L: Log, S: Stage> {
    pub(crate) view: View<'a>,
    /// The plans of all planned epochs.
    pub(crate) plans: Vec<Plan>,
    /// The parts of the streams, stream by stream.
    pub(crate) part_logs: Vec<PartLog<L>>,
    pub(crate) shares: Vec<Share<S>>,
    /// What each partition that keeps state keeps, where no worker has it.
    pub(crate) held: Vec<Option<Held>>,
    pub(crate) out: Option<OutWork<S>>,
    /// The greatest times over the committed epochs.
    pub(crate) seen: Seen,
    pub(crate) pending: Option<Pending<S::Sealed>>,
    /// What the epochs were that were committed in the round.
    pub(crate) told: Vec<Told>,
    pub(crate) kept: Kept<L>,
}

/// The coordinator of a round: the disk, the logs, the tasks of the epoch that runs, and the history of what was done.
#[derive(Drop)]
pub struct Desk<'a, D: Disk, L: Log> {
    pub(crate) alloc: Global,
    pub(crate) ledger: Ledger<D, Round<'a, L>>,
    pub(crate) load: Load<'a, L, D::Stage>,
}

impl<'a, D: Disk, L: Log> Model for Desk<'a, D, L> {
    ghost use Rattle.ssq_ledger.specs.Shown.{Shown};
    ghost use Rattle.ssq_desk.specs.declared.round.Round.{Round};
    ghost use Rattle.ssq_desk.specs.Whole.{IsWhole};
    ghost use Rattle.ssq_shape.specs.contracts.typed.Typed as typed;
    ghost use Rattle.std.specs.Coded.{codes};

    ghost Value = { Shown D (Round L) };

    ghost coded = { Prim.hlevel (codes, typed.the_row.coded) };

    ghost view = { λ s. s.ledger };

    ghost invariant = { λ s. IsWhole D.tells L.tells D.history L.lines L.available L.answers L.faults D.Stage.written D.Stage.sealed s.ledger s.load };
}
