//! The map task as a value, and its result.

ghost use Rattle.std.specs.Prelude.{◌≤◌};
ghost use Rattle.ssq_meaning.specs.Windows.{HasWindows};
ghost use Rattle.ssq_feed.specs.Outcome.{IsFed};

use crate::fault::FeedFault;
use crate::query::Query;
use crate::range::feed_lines;
use ssq_meaning::{FedRow, View, key_place};
use ssq_outside::Log;
use ssq_route::Buckets;
use ssq_value::Schema;
use std::alloc::Global;

/// Reads the new lines of a part, for an epoch.
#[derive(Drop)]
pub struct MapTask<'a, L: Log> {
    pub view: View<'a>,
    pub epoch: u32,
    /// The part's place among all parts of the job, from 0.
    pub number: u32,
    /// The stream's place in the order of FROM, and the part of that stream, from 0.
    pub stream: u32,
    pub part: u32,
    /// The offset of the first line, and that of the first line after the range.
    pub from: u64,
    pub to: u64,
    pub log: L,
}

/// What a map task brings of its lines.
#[derive(Drop)]
pub struct FedRows {
    /// The greatest event time of all their rows, in microseconds since 1970, those that WHERE drops included.
    pub time: Option<i64>,
    /// The fed rows by partition, each bucket in the order of the lines.
    pub buckets: Buckets<FedRow>,
}

/// The result of a map task: the task's own fields, the log among them, and what came of it.
#[derive(Drop)]
pub struct Fed<'a, L: Log> {
    pub view: View<'a>,
    pub epoch: u32,
    pub number: u32,
    pub stream: u32,
    pub part: u32,
    pub from: u64,
    pub to: u64,
    pub log: L,
    pub outcome: Result<FedRows, FeedFault>,
}

/// Reads the lines of the task's range one by one, and hands on their rows: of a grouped query once for each group of a row, of a join the row
/// as it is, of any other the row as SELECT shows it.
///
/// There is at least one partition. A grouped query has at most one window, which is of 1 second to 366 days and as long as one to 64 of
/// its slides.
///
/// The first faulty line of the range stops it, and so does a log that fails or has too few lines, or memory that ran out. The log
/// comes back in each case.
pub fn feed<'a, L: Log>(alloc: Global, task: MapTask<'a, L>) -> Fed<'a, L>
    requires partitions { 1 ≤ task.view.partitions }
    requires windows { HasWindows task.view.bound.now }
    ensures { IsFed L.tells L.lines L.available L.answers L.faults task.entry result }
{
    let MapTask {
        view,
        epoch,
        number,
        stream,
        part,
        from,
        to,
        mut log,
    } = task;
    let none = Schema::new(Vec::new(alloc), None);
    let schema = match view.bound.streams.as_slice().get(stream as usize) {
        Some(stream) => &stream.schema,
        None => &none,
    };
    let query = Query {
        bound: view.bound,
        schema,
        place: key_place(view.bound),
    };
    let outcome = feed_lines(
        alloc,
        &mut log,
        &query,
        view.partitions,
        epoch,
        stream,
        part,
        from,
        to,
    );
    Fed {
        view,
        epoch,
        number,
        stream,
        part,
        from,
        to,
        log,
        outcome,
    }
}
