//! A task of an epoch.

use ssq_feed::MapTask;
use ssq_outside::{Log, Stage};
use ssq_task::{OutTask, ReduceTask};

/// A task of an epoch, with all that it works on.
#[derive(Drop)]
pub enum Task<'a, L: Log, S: Stage> {
    Map(MapTask<'a, L>),
    Reduce(ReduceTask<'a, S>),
    Out(OutTask<'a, S>),
}
