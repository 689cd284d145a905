//! Command lines with what clap's documentation says of them: an option's value follows it as a word or after `=`, a word after
//! `--` is a positional, a lone `-` is one too, an option is given once, and what the command does not list is refused.
use ssq_words::{AskError, Command, ask};
use std::alloc::{AllocError, Global};
use std::test::Fail;

/// The words of a line, one blank between two of them.
fn words(alloc: Global, line: &str) -> Result<Vec<String>, AllocError> {
    let mut words = Vec::new(alloc);
    for word in line.split(' ') {
        words.push(String::from_str(alloc, word)?)?;
    }
    Ok(words)
}

/// Runs: the line, its query, its partitions, its most lines and its rounds.
static RUNS: [(&str, &str, Option<u32>, Option<u64>, u32); 20] = [
    ("ssq run q.sql", "q.sql", None, None, 1),
    ("/usr/bin/other run q.sql", "q.sql", None, None, 1),
    ("ssq run q.sql --partitions 1", "q.sql", Some(1), None, 1),
    ("ssq run q.sql --partitions 64", "q.sql", Some(64), None, 1),
    ("ssq run --partitions=+8 q.sql", "q.sql", Some(8), None, 1),
    ("ssq run q.sql --max-lines 2", "q.sql", None, Some(2), 1),
    ("ssq run --max-lines 2 q.sql", "q.sql", None, Some(2), 1),
    ("ssq run q.sql --max-lines=3", "q.sql", None, Some(3), 1),
    ("ssq run q.sql --max-lines 1", "q.sql", None, Some(1), 1),
    (
        "ssq run q.sql --max-lines 1099511627776",
        "q.sql",
        None,
        Some(1_099_511_627_776),
        1,
    ),
    ("ssq run q.sql --max-lines +5", "q.sql", None, Some(5), 1),
    ("ssq run q.sql --max-lines 007", "q.sql", None, Some(7), 1),
    ("ssq run q.sql --rounds 1", "q.sql", None, None, 1),
    (
        "ssq run q.sql --rounds 1000000",
        "q.sql",
        None,
        None,
        1_000_000,
    ),
    (
        "ssq run q.sql --rounds 4 --partitions 2 --max-lines 9",
        "q.sql",
        Some(2),
        Some(9),
        4,
    ),
    ("ssq run -- -q.sql", "-q.sql", None, None, 1),
    ("ssq run -", "-", None, None, 1),
    // The query is an empty word.
    ("ssq run ", "", None, None, 1),
    ("ssq run run", "run", None, None, 1),
    ("ssq run help", "help", None, None, 1),
];

static SHOWS: [(&str, &str); 2] = [
    ("ssq show q.sql", "q.sql"),
    ("ssq show -- -q.sql", "-q.sql"),
];

static EXPLAINS: [(&str, &str); 2] = [
    ("ssq explain q.sql", "q.sql"),
    ("ssq explain explain", "explain"),
];

static STATUSES: [(&str, &str); 2] = [
    ("ssq status q.sql", "q.sql"),
    ("ssq status -- --rounds", "--rounds"),
];

/// Generated input: the line, the number of its first line and how many lines it has.
static GENERATED: [(&str, u32, u32); 5] = [
    ("ssq gen 1 4", 1, 4),
    ("ssq gen 0 1", 0, 1),
    ("ssq gen 65536 10000000", 65536, 10_000_000),
    ("ssq gen +7 007", 7, 7),
    ("ssq gen -- 1 4", 1, 4),
];

static REFUSED: [&str; 62] = [
    "",
    "ssq",
    "ssq run",
    "ssq status",
    "ssq walk q.sql",
    "ssq RUN q.sql",
    "ssq ru q.sql",
    "ssq -- run q.sql",
    "ssq show",
    "ssq show a b",
    "ssq show q.sql --rounds 2",
    "ssq explain",
    "ssq explain a b",
    "ssq explain q.sql --partitions 2",
    "ssq gen",
    "ssq gen 1",
    "ssq gen 1 2 3",
    "ssq gen 65537 4",
    "ssq gen -1 4",
    "ssq gen 1 0",
    "ssq gen 1 10000001",
    "ssq gen one 4",
    "ssq gen 1 4.0",
    "ssq gen 1 4 --partitions 2",
    "ssq generate 1 4",
    "ssq run a b",
    "ssq status a b",
    "ssq run -q.sql",
    "ssq run --query q.sql",
    "ssq run --max-lines 2",
    "ssq run q.sql --max-lines",
    "ssq run q.sql --max-lines=",
    "ssq run q.sql --max-lines 0",
    "ssq run q.sql --max-lines 1099511627777",
    "ssq run q.sql --max-lines 18446744073709551616",
    "ssq run q.sql --max-lines -1",
    "ssq run q.sql --max-lines=-1",
    "ssq run q.sql --max-lines 1.0",
    "ssq run q.sql --max-lines two",
    "ssq run q.sql --max-lines 1 --max-lines 1",
    "ssq run q.sql --max-line 1",
    "ssq run q.sql --rounds",
    "ssq run q.sql --rounds 0",
    "ssq run q.sql --rounds 1000001",
    "ssq run q.sql --rounds 1 --rounds 2",
    "ssq run q.sql --partitions",
    "ssq run q.sql --partitions 0",
    "ssq run q.sql --partitions 65",
    "ssq run q.sql --partitions 2 --partitions 2",
    "ssq status q.sql --partitions 2",
    "ssq run q.sql --workers 2",
    "ssq run q.sql -v",
    "ssq status q.sql --rounds 2",
    "ssq --rounds 2 run q.sql",
    "ssq help",
    "ssq help run",
    "ssq --help",
    "ssq -h",
    "ssq --version",
    "ssq -V",
    "ssq run --help",
    "ssq status q.sql -h",
];

#[test]
fn lines_are_taken_or_refused(rt: HostRuntime) -> Result<(), Fail> {
    let alloc = rt.alloc();
    for (line, query, partitions, most_lines, rounds) in &RUNS {
        let words = words(alloc, line)?;
        let (query, partitions, most_lines, rounds) = (*query, *partitions, *most_lines, *rounds);
        let asked = Command::Run {
            query,
            partitions,
            most_lines,
            rounds,
        };
        assert_eq!(rt; ask(alloc, words.as_slice()), Ok(asked), "{line}");
    }
    for (line, query) in &SHOWS {
        let words = words(alloc, line)?;
        let query = *query;
        assert_eq!(rt;
            ask(alloc, words.as_slice()),
            Ok(Command::Show { query }),
            "{line}"
        );
    }
    for (line, query) in &EXPLAINS {
        let words = words(alloc, line)?;
        let query = *query;
        assert_eq!(rt;
            ask(alloc, words.as_slice()),
            Ok(Command::Explain { query }),
            "{line}"
        );
    }
    for (line, query) in &STATUSES {
        let words = words(alloc, line)?;
        let query = *query;
        assert_eq!(rt;
            ask(alloc, words.as_slice()),
            Ok(Command::Status { query }),
            "{line}"
        );
    }
    for (line, number, lines) in &GENERATED {
        let words = words(alloc, line)?;
        let (number, lines) = (*number, *lines);
        assert_eq!(rt;
            ask(alloc, words.as_slice()),
            Ok(Command::Gen { number, lines }),
            "{line}"
        );
    }
    for line in &REFUSED {
        let words = words(alloc, line)?;
        assert_eq!(rt;
            ask(alloc, words.as_slice()),
            Err(AskError::Usage),
            "{line}"
        );
    }
    let none: Vec<String> = Vec::new(alloc);
    assert_eq!(rt; ask(alloc, none.as_slice()), Err(AskError::Usage));
    Ok(())
}
