//! The one command of the command line, built as `specs/Program.antt` has it.
ghost use Rattle.std.specs.Prelude.{◌≡◌, IfOk, Ok};
ghost use Rattle.clap.specs.Words.{App, Rule, app_of, new_app, with_rule, with_subcommand};
ghost use Rattle.ssq_words.specs.Program.{IsRule, Makes, gen_app, needed_rule, option_rule, program, query_rule, run_app, top_app};

use clap::builder::ValueParser;
use clap::{Arg, Command};
use std::alloc::{AllocError, Global};

/// The most partitions that `--partitions` takes.
const MOST_PARTITIONS: u64 = 64;

/// The most lines that `--max-lines` takes.
const MOST_LINES: u64 = 1_099_511_627_776;

/// The most rounds that `--rounds` takes.
const MOST_ROUNDS: u64 = 1_000_000;

/// The greatest number of a first line of generated input.
const MOST_NUMBER: u64 = 65_536;

/// The most lines of generated input.
const MOST_GENERATED: u64 = 10_000_000;

fn query<'a>(alloc: Global) -> Arg<'a>
    ensures { IsRule query_rule result }
{
    Arg::new(alloc, "query").required(true)
}

/// An option with a number from 1 on.
fn option<'a>(alloc: Global, name: &'a str, most: u64) -> Arg<'a>
    ensures { IsRule (option_rule name.now most) result }
{
    Arg::new(alloc, name)
        .long(name)
        .value_parser(ValueParser::unsigned(1, most))
}

/// A number that has to stand there.
fn number<'a>(alloc: Global, name: &'a str, least: u64, most: u64) -> Arg<'a>
    ensures { IsRule (needed_rule name.now least most) result }
{
    Arg::new(alloc, name)
        .required(true)
        .value_parser(ValueParser::unsigned(least, most))
}

/// Two values, if there are both. Which of them has to be dropped is one step of the proof for any type, and many for a command.
fn both<T: Drop>(
    first: Result<T, AllocError>,
    second: Result<T, AllocError>,
) -> Result<(T, T), AllocError>
    ensures { IfOk result (λ both. (first ≡ Ok both.0) × (second ≡ Ok both.1)) }
{
    Ok((first?, second?))
}

/// A command in the making, unless memory ran out.
struct Draft<'a> {
    made: Result<Command<'a>, AllocError>,
}

impl<'a> Draft<'a> {
    /// A command of this name that takes nothing.
    fn new(alloc: Global, name: &'a str) -> Draft<'a>
        ensures { Makes (new_app name.now) result }
    {
        Draft {
            made: Ok(Command::new(alloc, name)),
        }
    }

    /// The command with one more argument.
    fn arg(self, arg: Arg<'a>) -> Draft<'a>
        ensures { (app : App) (rule : Rule) → Makes app self.entry → IsRule rule arg.entry → Makes (with_rule app rule) result }
    {
        match self {
            Draft { made: Ok(command) } => Draft {
                made: command.arg(arg),
            },
            Draft { made: Err(error) } => {
                drop(arg);
                Draft { made: Err(error) }
            }
        }
    }

    /// The command with one more subcommand.
    fn subcommand(self, subcommand: Draft<'a>) -> Draft<'a>
        ensures { (app below : App) → Makes app self.entry → Makes below subcommand.entry → Makes (with_subcommand app below.top) result }
    {
        let Draft { made: command } = self;
        let Draft { made: subcommand } = subcommand;
        match both(command, subcommand) {
            Ok((command, subcommand)) => Draft {
                made: command.subcommand(subcommand),
            },
            Err(error) => Draft { made: Err(error) },
        }
    }
}

fn run<'a>(alloc: Global) -> Draft<'a>
    ensures { Makes run_app result }
{
    Draft::new(alloc, "run")
        .arg(query(alloc))
        .arg(option(alloc, "partitions", MOST_PARTITIONS))
        .arg(option(alloc, "max-lines", MOST_LINES))
        .arg(option(alloc, "rounds", MOST_ROUNDS))
}

/// A command of this name that takes a query's file and nothing else.
fn about_query<'a>(alloc: Global, name: &'a str) -> Draft<'a>
    ensures { Makes (with_rule (new_app name.now) query_rule) result }
{
    Draft::new(alloc, name).arg(query(alloc))
}

fn generate<'a>(alloc: Global) -> Draft<'a>
    ensures { Makes gen_app result }
{
    Draft::new(alloc, "gen")
        .arg(number(alloc, "number", 0, MOST_NUMBER))
        .arg(number(alloc, "lines", 1, MOST_GENERATED))
}

/// The command without its subcommands.
#[tactic(auto, unfolding(crate::specs::Program::top_app))]
fn top<'a>(alloc: Global) -> Draft<'a>
    ensures { Makes top_app result }
{
    Draft {
        made: Ok(
            Command::new(alloc, "ssq")
                .disable_help_flag(true)
                .disable_help_subcommand(true)
                .subcommand_required(true),
        ),
    }
}

/// The command with all its subcommands.
pub(crate) fn program<'a>(alloc: Global) -> Result<Command<'a>, AllocError>
    ensures { IfOk result (λ c. app_of c ≡ program) }
{
    let Draft { made } = top(alloc)
        .subcommand(run(alloc))
        .subcommand(about_query(alloc, "show"))
        .subcommand(about_query(alloc, "explain"))
        .subcommand(about_query(alloc, "status"))
        .subcommand(generate(alloc));
    made
}
