//! The job that is wanted, and what is found of it.

use crate::stateful::Keeps;
use crate::stores::Finding;
use crate::streams::Watermarked;
use ssq_outside::Name;
use ssq_plans::{Meta, PartEnd, Plan, SeenBy};
use ssq_store::Store;
use ssq_value::{Sequence, Text};

/// The lines that were found in the parts of a query's streams.
#[derive(Drop)]
pub struct Lens {
    /// For each stream, in the query's order, how many lines are found in each of its parts, in order.
    pub streams: Sequence<Sequence<u64>>,
}

/// The job that is wanted, and what was found of its logs.
#[derive(Clone, Copy)]
pub(crate) struct Wanted<'a> {
    /// The query's canonical text.
    pub(crate) query: &'a Text,
    /// The query's watermarked streams.
    pub(crate) streams: &'a [Watermarked],
    /// What the query keeps.
    pub(crate) keeps: Keeps,
    /// How its operator finds what it keeps.
    pub(crate) finding: Finding,
    /// How many partitions are asked for, 1 to 64. Where that is not asked, they are as kept, and one in a new checkpoint.
    pub(crate) partitions: Option<u32>,
    /// How many parts each stream has, in the query's order: at most 64 each.
    pub(crate) parts: &'a [u32],
    /// How many lines are found in each part of each stream, in order.
    pub(crate) found: &'a [PartEnd],
}

/// What a checkpoint holds of a job.
#[derive(Drop)]
pub struct Opened {
    /// The record of the job, with its partitions and parts as kept.
    pub meta: Meta,
    /// The plans of the planned epochs, in order, with the cut and the watermark of each. At most one epoch is planned and not
    /// committed: the last, which runs with its plan.
    pub plans: Sequence<Plan>,
    /// How many epochs are committed.
    pub committed: u32,
    /// The greatest event times over the committed epochs, one for each watermarked stream, in order. Where no epoch is committed an opening has
    /// no line, and a round gives on a line without a time for each.
    pub seen: Sequence<SeenBy>,
    /// The stores of the partitions that keep state, in order, each with the partition's state after the committed epochs. A look loads
    /// none.
    pub stores: Sequence<Store>,
    /// The names of the files of the state that are there, in no order that counts.
    pub names: Sequence<Name>,
}
