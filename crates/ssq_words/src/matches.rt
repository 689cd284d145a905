//! What clap's matches ask for.
ghost use Rattle.std.specs.Prelude.{◌≡◌, ◌≤◌, Some, codes, option_and_then, unwrap_or};
ghost use Rattle.std.specs.Option.{ForSome};
ghost use Rattle.clap.specs.Walk.{rows_of, first_of};
ghost use Rattle.clap.specs.Words.{found_of, subcommand_rows_of};
ghost use Rattle.ssq_words.specs.Asking.{number_given, run_asked, asked_of, show_asked, explain_asked, status_asked, gen_asked, subcommand_asked, IsInRange};
ghost use Rattle.ssq_words.specs.Reading.{HasNumberIn, HasQuery, IsGen, IsNumberIn, IsRun, IsWhole};

use crate::Command;
use clap::ArgMatches;

/// The rounds of a run, where nothing else is said.
const ROUNDS: u32 = 1;

fn query<'a>(matches: &ArgMatches<'a>) -> &'a str
    requires { HasQuery (rows_of (found_of matches.now)) }
    ensures { first_of (codes "query") (rows_of (found_of matches.now)) ≡ Some result.now }
{
    matches.get_str("query").unwrap()
}

fn partitions(matches: &ArgMatches<'_>) -> Option<u32>
    requires { HasNumberIn 1 64 (codes "partitions") (rows_of (found_of matches.now)) }
    ensures given { result ≡ number_given (codes "partitions") (rows_of (found_of matches.now)) }
    ensures in_range { ForSome result (λ partitions. (1 ≤ partitions) × (partitions ≤ 64)) }
{
    matches.get_one::<u32>("partitions")
}

fn most_lines(matches: &ArgMatches<'_>) -> Option<u64>
    requires { HasNumberIn 1 1099511627776 (codes "max-lines") (rows_of (found_of matches.now)) }
    ensures given { result ≡ number_given (codes "max-lines") (rows_of (found_of matches.now)) }
    ensures in_range { ForSome result (λ most. (1 ≤ most) × (most ≤ 1099511627776)) }
{
    matches.get_one::<u64>("max-lines")
}

fn rounds(matches: &ArgMatches<'_>) -> u32
    requires { HasNumberIn 1 1000000 (codes "rounds") (rows_of (found_of matches.now)) }
    ensures given { result ≡ unwrap_or (number_given (codes "rounds") (rows_of (found_of matches.now))) 1 }
    ensures in_range { (1 ≤ result) × (result ≤ 1000000) }
{
    matches.get_one::<u32>("rounds").unwrap_or(ROUNDS)
}

#[tactic(auto, unfolding(crate::specs::Asking::run_asked))]
fn run_of<'a>(matches: &ArgMatches<'a>) -> Command<'a>
    requires { IsRun (rows_of (found_of matches.now)) }
    ensures asked { run_asked (rows_of (found_of matches.now)) ≡ Some (asked_of result) }
    ensures in_range { IsInRange result }
{
    let query = query(matches);
    let partitions = partitions(matches);
    let most_lines = most_lines(matches);
    let rounds = rounds(matches);
    Command::Run {
        query,
        partitions,
        most_lines,
        rounds,
    }
}

#[tactic(auto, unfolding(crate::specs::Asking::show_asked))]
fn show_of<'a>(matches: &ArgMatches<'a>) -> Command<'a>
    requires { HasQuery (rows_of (found_of matches.now)) }
    ensures asked { show_asked (rows_of (found_of matches.now)) ≡ Some (asked_of result) }
    ensures in_range { IsInRange result }
{
    let query = query(matches);
    Command::Show { query }
}

#[tactic(auto, unfolding(crate::specs::Asking::explain_asked))]
fn explain_of<'a>(matches: &ArgMatches<'a>) -> Command<'a>
    requires { HasQuery (rows_of (found_of matches.now)) }
    ensures asked { explain_asked (rows_of (found_of matches.now)) ≡ Some (asked_of result) }
    ensures in_range { IsInRange result }
{
    let query = query(matches);
    Command::Explain { query }
}

#[tactic(auto, unfolding(crate::specs::Asking::status_asked))]
fn status_of<'a>(matches: &ArgMatches<'a>) -> Command<'a>
    requires { HasQuery (rows_of (found_of matches.now)) }
    ensures asked { status_asked (rows_of (found_of matches.now)) ≡ Some (asked_of result) }
    ensures in_range { IsInRange result }
{
    let query = query(matches);
    Command::Status { query }
}

fn number(matches: &ArgMatches<'_>) -> u32
    requires { IsNumberIn 0 65536 (codes "number") (rows_of (found_of matches.now)) }
    ensures given { number_given (codes "number") (rows_of (found_of matches.now)) ≡ Some result }
    ensures in_range { result ≤ 65536 }
{
    matches.get_one::<u32>("number").unwrap_or(0)
}

fn lines(matches: &ArgMatches<'_>) -> u32
    requires { IsNumberIn 1 10000000 (codes "lines") (rows_of (found_of matches.now)) }
    ensures given { number_given (codes "lines") (rows_of (found_of matches.now)) ≡ Some result }
    ensures in_range { (1 ≤ result) × (result ≤ 10000000) }
{
    matches.get_one::<u32>("lines").unwrap_or(1)
}

#[tactic(auto, unfolding(crate::specs::Asking::gen_asked))]
fn gen_of<'a>(matches: &ArgMatches<'a>) -> Command<'a>
    requires { IsGen (rows_of (found_of matches.now)) }
    ensures asked { gen_asked (rows_of (found_of matches.now)) ≡ Some (asked_of result) }
    ensures in_range { IsInRange result }
{
    let number = number(matches);
    let lines = lines(matches);
    Command::Gen { number, lines }
}

/// The subcommand that was met, with its own matches.
fn met<'m, 'a>(matches: &'m ArgMatches<'a>) -> (&'a str, &'m ArgMatches<'a>)
    requires { IsWhole (subcommand_rows_of matches.now) }
    ensures { subcommand_rows_of matches.entry.now ≡ Some (result.0.now, rows_of (found_of result.1.now)) }
{
    matches.subcommand().unwrap()
}

/// What the matches of words that clap takes ask for.
#[tactic(auto, unfolding(crate::specs::Asking::subcommand_asked))]
pub(crate) fn command_of<'a>(matches: &ArgMatches<'a>) -> Command<'a>
    requires { IsWhole (subcommand_rows_of matches.now) }
    ensures asked { option_and_then (λ p. subcommand_asked p.0 p.1) (subcommand_rows_of matches.now) ≡ Some (asked_of result) }
    ensures in_range { IsInRange result }
{
    let (name, inner) = met(matches);
    match name {
        "run" => run_of(inner),
        "show" => show_of(inner),
        "explain" => explain_of(inner),
        "status" => status_of(inner),
        _ => gen_of(inner),
    }
}
