//! The lines of a range, one after the other.

ghost use Rattle.std.specs.Prelude.{◌≡◌, ◌≤◌, IfOk, IfErr, IfSome};
ghost use Rattle.ssq_time.specs.Time.{IsLineTime};
ghost use Rattle.ssq_meaning.specs.Times.{later};
ghost use Rattle.ssq_feed.specs.Finding.{IsFoundFor};
ghost use Rattle.ssq_feed.specs.Rows.{IsFedFrom};
ghost use Rattle.ssq_feed.specs.Causes.{LogWent, FeedCause};

use crate::dealer::{Dealer, Origin};
use crate::fault::FeedFault;
use crate::line::{deal_line, read_line};
use crate::query::Query;
use crate::task::FedRows;
use ssq_outside::Log;
use std::alloc::Global;

/// The later of two times.
fn later(greatest: Option<i64>, time: Option<i64>) -> Option<i64>
    ensures later { result ≡ later greatest time }
    ensures years { IfSome greatest IsLineTime → IfSome time IsLineTime → IfSome result IsLineTime }
{
    match (greatest, time) {
        (Some(greatest), Some(time)) => Some(greatest.max(time)),
        (Some(greatest), None) => Some(greatest),
        (None, time) => time,
    }
}

/// What the lines of a part bring from one offset up to another, for an epoch.
pub(crate) fn feed_lines<L: Log>(
    alloc: Global,
    log: &mut L,
    query: &Query<'_>,
    partitions: u32,
    epoch: u32,
    stream: u32,
    part: u32,
    from: u64,
    to: u64,
) -> Result<FedRows, FeedFault>
    requires partitions { 1 ≤ partitions }
    requires found { IsFoundFor stream query.now }
    ensures rows { IfOk result (λ fed. IsFedFrom L.tells query.now.bound.now epoch (record { stream = stream; part = part; lines = L.lines log.old }) from to
        partitions fed.time fed.buckets) }
    ensures fault { IfErr result (FeedCause L.tells L.lines L.available L.answers L.faults query.now.bound.now stream part from to log.old log.new) }
    ensures log { LogWent L.tells L.lines L.available L.answers L.faults log.old log.new }
{
    let mut line = Vec::new(alloc);
    let mut room = Vec::new(alloc);
    let mut time = None;
    let mut dealer = Dealer::new(alloc, partitions)?;
    for at in from..to {
        read_line(log, at, to, &mut line)?;
        let origin = Origin {
            epoch,
            stream,
            part,
            offset: at,
        };
        let own = deal_line(
            alloc,
            query,
            origin,
            line.as_slice(),
            &mut room,
            &mut dealer,
        )?;
        time = later(time, own);
    }
    Ok(FedRows {
        time,
        buckets: dealer.into_buckets(),
    })
}
