//! How the results of map tasks are taken back.

ghost use Rattle.std.specs.Prelude.{◌≡◌, [], ◌∷◌, Some, None, IfOk, IfErr};
ghost use Rattle.ssq_board.specs.declared.front.Entry.TheVariants as entry;
ghost use Rattle.ssq_board.specs.Core.{May, due};
ghost use Rattle.ssq_ledger.specs.Shown.{Shown, did, answer};
ghost use Rattle.ssq_feed.specs.declared.task.MapTask.{MapTask as MapTaskOf};
ghost use Rattle.ssq_feed.specs.Outcome.{IsFed};
ghost use Rattle.ssq_desk.specs.Tasks.{map_id};
ghost use Rattle.ssq_desk.specs.Handed.{IsMapOf};
ghost use Rattle.ssq_desk.specs.Results.{cause_of_bad, cause_of_feed, fault_of};

use crate::desk::Desk;
use ssq_board::{Cause, RowFault};
use ssq_feed::{Fed, FedRows, FeedFault};
use ssq_json::BadRow;
use ssq_outside::{Disk, Kind, Log, TaskId};
use ssq_terms::tasks_have_terms;

/// The cause for which a line is bad.
fn cause_of_bad(stream: u32, part: u32, offset: u64, what: BadRow) -> Cause
    ensures { result ≡ cause_of_bad stream part offset what }
{
    let fault = match what {
        BadRow::TooLong => RowFault::TooLong,
        BadRow::NotJson => RowFault::NotJson,
        BadRow::NotObject => RowFault::NotObject,
        BadRow::WrongType { column } => RowFault::WrongType { column },
        BadRow::NoEventTime => RowFault::NoEventTime,
        BadRow::NoMemory => return Cause::NoMemory,
    };
    Cause::BadLine {
        stream,
        part,
        offset,
        fault,
    }
}

/// Why a map task of this part brought nothing.
fn cause_of_feed(stream: u32, part: u32, fault: FeedFault) -> Cause
    ensures { result ≡ cause_of_feed stream part fault }
{
    match fault {
        FeedFault::BadLine { offset, cause } => cause_of_bad(stream, part, offset, cause),
        FeedFault::Overflow { offset } => Cause::Overflow {
            stream,
            part,
            offset,
        },
        FeedFault::LogFault => Cause::LogFault,
        FeedFault::LogShort { logged, found } => Cause::LogShort {
            stream,
            part,
            logged,
            found,
        },
        FeedFault::NoMemory => Cause::NoMemory,
    }
}

/// What a map task brought, and the cause for which it brought nothing.
fn split_fed(
    stream: u32,
    part: u32,
    outcome: Result<FedRows, FeedFault>,
) -> (Option<FedRows>, Option<Cause>)
    ensures cause { result.1 ≡ fault_of (cause_of_feed stream part) outcome }
    ensures brought { IfOk outcome (λ fed. result.0 ≡ Some fed) }
{
    match outcome {
        Ok(fed) => (Some(fed), None),
        Err(fault) => (None, Some(cause_of_feed(stream, part, fault))),
    }
}

impl<'a, D: Disk, L: Log> Desk<'a, D, L> {
    /// Takes the result of a map task that was handed out. Answers the Stop that it brings about.
    pub fn report_fed(&mut self, done: Fed<'a, L>) -> Result<(), Cause>
        requires may { May self.old.scope self.old.core (entry.Report (map_id done.epoch done.number) (fault_of (cause_of_feed done.stream done.part) done.outcome)) }
        requires of { (task : MapTaskOf L) × IsMapOf D.tells L.tells D.history L.lines L.available L.answers L.faults self.old task × IsFed L.tells L.lines L.available L.answers L.faults task done }
        ensures did { self.new ≡ did self.old self.old.disk (entry.Report (map_id done.entry.epoch done.entry.number) (fault_of (cause_of_feed done.entry.stream done.entry.part) done.entry.outcome) ∷ []) }
        ensures answer { result ≡ answer (due self.old.core (map_id done.entry.epoch done.entry.number) (fault_of (cause_of_feed done.entry.stream done.entry.part) done.entry.outcome)) }
    {
        self.ledger.is_legal();
        self.ledger.is_in_order();
        tasks_have_terms();
        let Fed {
            epoch,
            number,
            stream,
            part,
            log,
            outcome,
            ..
        } = done;
        let (fed, fault) = split_fed(stream, part, outcome);
        let part_log = &mut self.load.part_logs[number as usize];
        part_log.log = Some(log);
        part_log.fed = fed;
        self.ledger.report(
            TaskId {
                epoch,
                kind: Kind::Map,
                number,
            },
            fault,
        )
    }
}
