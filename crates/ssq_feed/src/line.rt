//! One line of a part: read from its log, and what it gives.

ghost use Rattle.std.specs.Prelude.{◌≡◌, OnOk, IfOk, IfErr};
ghost use Rattle.ssq_meaning.specs.Feeding.{time_of_row};
ghost use Rattle.ssq_feed.specs.Dealing.{HasDealt};
ghost use Rattle.ssq_feed.specs.Finding.{IsFoundFor};
ghost use Rattle.ssq_feed.specs.Rows.{IsRead, LineCause};
ghost use Rattle.ssq_feed.specs.Causes.{LogWent, ReadCause};

use crate::dealer::{Dealer, Origin};
use crate::fault::FeedFault;
use crate::handed::hand_on;
use crate::query::Query;
use crate::times::time_at;
use ssq_expr::EvalFault;
use ssq_json::{BadRow, read_row_in};
use ssq_outside::{LineError, Log};
use ssq_value::{Schema, Value};
use std::alloc::Global;
use std::mem;

/// Reads the line at an offset of a range that ends at `to`, into the buffer.
pub(crate) fn read_line<L: Log>(
    log: &mut L,
    at: u64,
    to: u64,
    line: &mut Vec<u8>,
) -> Result<(), FeedFault>
    ensures read { L.tells → OnOk result (IsRead (L.lines log.new) at line.new.items) }
    ensures fault { IfErr result (ReadCause L.tells L.lines L.available L.answers L.faults at to log.old log.new) }
    ensures log { LogWent L.tells L.lines L.available L.answers L.faults log.old log.new }
{
    match log.line(at, line) {
        Ok(()) => Ok(()),
        Err(LineError::Fault) => Err(FeedFault::LogFault),
        Err(LineError::NoMemory) => Err(FeedFault::NoMemory),
        Err(LineError::Short { found }) => Err(FeedFault::LogShort { logged: to, found }),
    }
}

/// The event time of a row, where its stream has an event column.
fn event_time(schema: &Schema, row: &[Value]) -> Option<i64>
    ensures { result ≡ time_of_row schema.now row.now }
{
    time_at(row, schema.event()?)
}

/// Deals what the bytes of a line give, and tells the event time of its row; a blank one gives nothing. The row is read in the room of one before, and
/// leaves that room to the next where the row itself is not handed on.
pub(crate) fn deal_line(
    alloc: Global,
    query: &Query<'_>,
    origin: Origin,
    line: &[u8],
    room: &mut Vec<Value>,
    dealer: &mut Dealer,
) -> Result<Option<i64>, FeedFault>
    requires { IsFoundFor origin.stream query.now }
    ensures dealt { IfOk result (HasDealt query.now.bound.now origin line.now dealer.old.buckets dealer.new.buckets) }
    ensures fault { IfErr result (LineCause query.now.bound.now origin.stream line.now origin.offset) }
{
    let at = origin.offset;
    let schema = query.schema;
    let row = match read_row_in(alloc, line, schema, mem::replace(room, Vec::new(alloc))) {
        Ok(Some(row)) => row,
        Ok(None) => return Ok(None),
        Err(BadRow::NoMemory) => return Err(FeedFault::NoMemory),
        Err(cause) => return Err(FeedFault::BadLine { offset: at, cause }),
    };
    let time = event_time(schema, row.as_slice());
    match hand_on(alloc, query, origin, row, room, dealer) {
        Ok(()) => Ok(time),
        Err(EvalFault::Overflow) => Err(FeedFault::Overflow { offset: at }),
        Err(EvalFault::NoMemory) => Err(FeedFault::NoMemory),
    }
}
