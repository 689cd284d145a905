//! What is to be done: a command, with its query.

ghost use Rattle.std.specs.Prelude.{◌≡◌, ◌≤◌, List, ℕ, Some, map, option_map, string_bytes, IfOk, IfErr};
ghost use Rattle.ssq_outside.specs.Logs.{Held};
ghost use Rattle.ssq_accept.specs.Accepting.{IsRefused};
ghost use Rattle.ssq_terms.specs.Setting.{CanRun};
ghost use Rattle.ssq_words.specs.Asking.{asked, asked_of, IsInRange};
ghost use Rattle.ssq_run.specs.Prepared.{CanDo, IsTodo, IsUnready};
ghost use Rattle.ssq_run.specs.Queries.{IsQueryFor, IsQueryOf, IsSomeQuery, file_of, text_for};
ghost use Rattle.ssq_run.specs.Stopping.{HasCount, IsNoFile, IsPastWords, IsUnread, WordsCause, stop_in};

use crate::stop::Stop;
use ssq_accept::{Refusal, accept};
use ssq_gen::QUERY;
use ssq_outside::Inputs;
use ssq_runner::Ask;
use ssq_shape::Bound;
use ssq_words::{Command, ask};
use std::alloc::Global;

/// More bytes than a query's file may have.
const PAST_QUERY: usize = 65_537;

/// What is told of a query, which changes nothing.
#[derive(Clone, Copy)]
pub(crate) enum Look {
    /// The table of its checkpoint.
    Table,
    /// What it is.
    Query,
    /// How far its checkpoint has come.
    Checkpoint,
    /// Counts of its rows over so many generated lines from this number on.
    Generated { number: u32, lines: u32 },
}

/// What is to be done.
#[derive(Drop)]
pub(crate) enum Todo {
    /// A query is run over the parts of its streams.
    Run { bound: Bound, ask: Ask },
    /// Something is told of a query.
    Look { bound: Bound, look: Look },
}

/// The file that a command names; generated input has none.
fn file_of<'a>(command: Command<'a>) -> Option<&'a str>
    ensures { option_map (λ file. file.now) result ≡ file_of (asked_of command.entry) }
{
    match command {
        Command::Run { query, .. } => Some(query),
        Command::Show { query } => Some(query),
        Command::Explain { query } => Some(query),
        Command::Status { query } => Some(query),
        Command::Gen { .. } => None,
    }
}

/// The text of a command's query: its file's, or that of the query of generated input.
fn query_text<I: Inputs>(
    alloc: Global,
    inputs: &mut I,
    command: Command<'_>,
) -> Result<Vec<u8>, Stop>
    ensures text { I.tells → IfOk result (λ text. text.items ≡ text_for (I.held inputs.old) (asked_of command.entry)) }
    ensures unread { IfErr result IsNoFile }
    ensures held { I.tells → I.held inputs.new ≡ I.held inputs.old }
    ensures unreturned { I.tells → I.returned inputs.new ≡ I.returned inputs.old }
    ensures grown { I.tells → (stream : List ℕ) (part : ℕ) → I.available inputs.old stream part ≤ I.available inputs.new stream part }
    ensures counted { I.faults inputs.old ≤ I.faults inputs.new }
    ensures cause { HasCount (I.faults inputs.old) (I.faults inputs.new) 0 0 0 0 (stop_in result) }
{
    match file_of(command) {
        Some(file) => Ok(inputs.text(alloc, file, PAST_QUERY)?),
        None => Ok(Vec::from_slice(alloc, QUERY.as_bytes())?),
    }
}

/// The query that a text is, bound.
#[tactic(auto, using(crate::proofs::Runnable::can_run))]
fn query_of(alloc: Global, text: &[u8]) -> Result<Bound, Refusal>
    ensures is { IfOk result (IsQueryOf text.now) }
    ensures can { IfOk result CanRun }
    ensures refused { IfErr result (IsRefused text.now) }
{
    Ok(accept(alloc, text)?.into_bound())
}

/// Reads the query of a command.
#[tactic(auto, using(crate::proofs::Passing::refusal_unread))]
fn read_query<I: Inputs>(alloc: Global, inputs: &mut I, command: Command<'_>) -> Result<Bound, Stop>
    ensures is { I.tells → IfOk result (IsQueryFor (I.held inputs.old) (asked_of command.entry)) }
    ensures can { IfOk result CanRun }
    ensures known { IfOk result IsSomeQuery }
    ensures unread { I.tells → IfErr result (IsUnread (I.held inputs.old) (asked_of command.entry)) }
    ensures held { I.tells → I.held inputs.new ≡ I.held inputs.old }
    ensures unreturned { I.tells → I.returned inputs.new ≡ I.returned inputs.old }
    ensures grown { I.tells → (stream : List ℕ) (part : ℕ) → I.available inputs.old stream part ≤ I.available inputs.new stream part }
    ensures only { IsPastWords (stop_in result) }
    ensures counted { I.faults inputs.old ≤ I.faults inputs.new }
    ensures cause { HasCount (I.faults inputs.old) (I.faults inputs.new) 0 0 0 0 (stop_in result) }
{
    let text = query_text(alloc, inputs, command)?;
    match query_of(alloc, text.as_slice()) {
        Ok(bound) => Ok(bound),
        Err(refusal) => Err(Stop::from(refusal)),
    }
}

/// What a command asks to be done with its query.
fn todo_of(command: Command<'_>, bound: Bound) -> Todo
    requires in_range { IsInRange command }
    requires can { CanRun bound }
    requires known { IsSomeQuery bound }
    ensures todo { (held : Held) (words : List (List ℕ)) → asked words ≡ Some (asked_of command.entry) → IsQueryFor held (asked_of command.entry) bound → IsTodo held words result }
    ensures can { CanDo result }
{
    match command {
        Command::Run {
            query: _,
            partitions,
            most_lines,
            rounds,
        } => Todo::Run {
            bound,
            ask: Ask {
                partitions,
                cap: most_lines,
                rounds,
            },
        },
        Command::Show { query: _ } => Todo::Look {
            bound,
            look: Look::Table,
        },
        Command::Explain { query: _ } => Todo::Look {
            bound,
            look: Look::Query,
        },
        Command::Status { query: _ } => Todo::Look {
            bound,
            look: Look::Checkpoint,
        },
        Command::Gen { number, lines } => Todo::Look {
            bound,
            look: Look::Generated { number, lines },
        },
    }
}

/// What is to be done, by the words.
pub(crate) fn prepare<I: Inputs>(
    alloc: Global,
    words: &[String],
    inputs: &mut I,
) -> Result<Todo, Stop>
    ensures todo { I.tells → IfOk result (IsTodo (I.held inputs.old) (map string_bytes words.now)) }
    ensures can { IfOk result CanDo }
    ensures unready { I.tells → IfErr result (IsUnready (I.held inputs.old) (map string_bytes words.now)) }
    ensures words { WordsCause (map string_bytes words.now) (stop_in result) }
    ensures held { I.tells → I.held inputs.new ≡ I.held inputs.old }
    ensures unreturned { I.tells → I.returned inputs.new ≡ I.returned inputs.old }
    ensures grown { I.tells → (stream : List ℕ) (part : ℕ) → I.available inputs.old stream part ≤ I.available inputs.new stream part }
    ensures counted { I.faults inputs.old ≤ I.faults inputs.new }
    ensures cause { HasCount (I.faults inputs.old) (I.faults inputs.new) 0 0 0 0 (stop_in result) }
{
    match ask(alloc, words) {
        Ok(command) => match read_query(alloc, inputs, command) {
            Ok(bound) => Ok(todo_of(command, bound)),
            Err(stop) => Err(stop),
        },
        Err(error) => Err(Stop::from(error)),
    }
}
