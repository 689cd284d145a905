//! The words of the command line, read by `clap`.
//!
//! [`ask`] reads them. The one command that it takes is `program` of `specs/Program.antt`; what its matches ask for is
//! `asked` of `specs/Asking.antt`.
#![tactic(auto)]

ghost use Rattle.std.specs.Prelude.{◌≡◌, IfErr, IfOk, Some, [], true, is_some, map, string_bytes};
ghost use Rattle.clap.specs.Words.{fault_of};
ghost use Rattle.ssq_words.specs.Asking.{IsCause, IsInRange, asked, asked_of};
ghost use Rattle.ssq_words.specs.Program.{program};

mod error;
mod lines;
mod matches;
mod program;

pub use error::AskError;
pub use lines::lines_are_read;
use matches::command_of;
use program::program;
use std::alloc::Global;

/// What the program is asked to do.
#[derive(Clone, Copy, Debug, PartialEq, Eq)]
pub enum Command<'a> {
    /// Run the query over the lines that are there and not yet read, in `rounds` rounds, at most `most_lines` lines of
    /// a part to an epoch, with the state in `partitions` partitions.
    Run {
        /// The query's file.
        query: &'a str,
        /// 1 to 64 partitions; `None` is as many as the checkpoint has, or one where it is new.
        partitions: Option<u32>,
        /// 1 to 1099511627776 lines; `None` is no cap.
        most_lines: Option<u64>,
        /// 1 to 1000000 rounds.
        rounds: u32,
    },
    /// Tell the rows of the query's checkpoint, as its mode has them.
    Show {
        /// The query's file.
        query: &'a str,
    },
    /// Tell the query's canonical text and how it is run.
    Explain {
        /// The query's file.
        query: &'a str,
    },
    /// Tell how far the checkpoint is.
    Status {
        /// The query's file.
        query: &'a str,
    },
    /// Run a query over generated lines in memory, and tell what came of them.
    Gen {
        /// 0 to 65536: the number of the first line.
        number: u32,
        /// 1 to 10000000 lines.
        lines: u32,
    },
}

/// What the words ask for. They begin with the program's name, and are `run QUERY [--partitions N] [--max-lines N]
/// [--rounds N]`, `show QUERY`, `explain QUERY`, `status QUERY` or `gen NUMBER LINES`, in the forms that clap takes: a value follows its option as a word or
/// after `=`, numbers may have a `+` and leading zeros, and after `--` a word that begins with `-` is a query too.
///
/// `Usage` comes exactly where clap takes the words for none of these, unless memory runs out, which is `NoMemory`.
pub fn ask<'a>(alloc: Global, words: &'a [String]) -> Result<Command<'a>, AskError>
    ensures taken { IfOk result (λ command. asked (map string_bytes words.entry.now) ≡ Some (asked_of command)) }
    ensures in_range { IfOk result IsInRange }
    ensures refused { IfErr result (IsCause (map string_bytes words.entry.now)) }

    // Words in which clap finds no fault are always a command.
    ensures whole { fault_of program (map string_bytes words.entry.now) ≡ [] → is_some (asked (map string_bytes words.entry.now)) ≡ true }
{
    match program(alloc)?.try_get_matches_from(words) {
        Ok(matches) => Ok(command_of(&matches)),
        Err(error) => Err(AskError::of(&error)),
    }
}
