//! Lists of a query that have as many members as there may be, or one more.

use crate::told::told;
use std::alloc::{AllocError, AllocGlobal, Global};
use std::process::Abort;
use std::test::Fail;

fn push_number(text: &mut String, number: usize) -> Result<(), AllocError> {
    text.push(char::from(b'0' + (number / 10 % 10) as u8))?;
    text.push(char::from(b'0' + (number % 10) as u8))
}

/// A part of a text, in which `#` stands for two digits of the number.
fn push_part(text: &mut String, part: &str, number: usize) -> Result<(), AllocError> {
    for c in part.chars() {
        if c == '#' {
            push_number(text, number)?;
        } else {
            text.push(c)?;
        }
    }
    Ok(())
}

/// The parts one after the other, each so many times, with the numbers from 0 in it.
fn written(alloc: Global, parts: &[(usize, &str)]) -> Result<String, AllocError> {
    let mut text = String::new(alloc);
    for (times, part) in parts {
        for number in 0..*times {
            push_part(&mut text, part, number)?;
        }
    }
    Ok(text)
}

type Row = (&'static [(usize, &'static str)], &'static str);

fn check(rt: &(impl Abort + AllocGlobal), rows: &[Row]) -> Result<(), Fail> {
    for (parts, want) in rows {
        let file = written(rt.alloc(), parts)?;
        let found = told(rt.alloc(), file.as_bytes())?;
        assert_eq!(rt; found.as_str(), *want, "at {file}");
    }
    Ok(())
}

static WITHIN: [Row; 6] = [
    (
        &[
            (1, "CREATE STREAM s ("),
            (63, "c# BIGINT, "),
            (1, "c63 BIGINT) FROM 's'; SELECT c63 FROM s OUTPUT APPEND;"),
        ],
        "accepted",
    ),
    (
        &[
            (1, "CREATE STREAM s (v BIGINT) FROM 's'; SELECT "),
            (63, "v + 0 AS c#, "),
            (1, "v FROM s OUTPUT APPEND;"),
        ],
        "accepted",
    ),
    (
        &[
            (1, "CREATE STREAM s ("),
            (63, "c# TIMESTAMP, "),
            (
                1,
                "c63 TIMESTAMP) FROM 's'; SELECT COUNT(*) AS n FROM s GROUP BY ",
            ),
            (63, "c#, "),
            (1, "WINDOW(c63, '1 minute') OUTPUT COMPLETE;"),
        ],
        "accepted",
    ),
    (
        &[
            (1, "CREATE STREAM s ("),
            (63, "c# BIGINT, "),
            (1, "c63 BIGINT) FROM 's'; SELECT c63 FROM s DEDUPLICATE BY "),
            (63, "c#, "),
            (1, "c63 OUTPUT APPEND;"),
        ],
        "accepted",
    ),
    (
        &[
            (1, "CREATE STREAM s (v BIGINT) FROM 's'; SELECT "),
            (63, "COUNT(*) AS c#, "),
            (
                1,
                "v FROM s GROUP BY v HAVING COUNT(*) > 0 OUTPUT COMPLETE;",
            ),
        ],
        "accepted",
    ),
    (
        &[
            (
                1,
                "CREATE STREAM l (k BIGINT) FROM 'l'; CREATE STREAM r (k BIGINT) FROM 'r'; SELECT l.k FROM l JOIN r ON ",
            ),
            (31, "(l.k = r.k AND l.k = r.k) AND "),
            (1, "(l.k = r.k AND l.k = r.k) OUTPUT APPEND;"),
        ],
        "accepted",
    ),
];

#[test]
fn as_many_as_may_be_are_accepted(rt: HostRuntime) -> Result<(), Fail> {
    check(&rt, &WITHIN)
}

static BEYOND: [Row; 13] = [
    // 17 bytes, and 12 for each of 64 columns
    (
        &[
            (1, "CREATE STREAM s ("),
            (64, "c# BIGINT, "),
            (1, "c64 BIGINT) FROM 's'; SELECT c00 FROM s OUTPUT APPEND;"),
        ],
        "TooMany at 785",
    ),
    // 37 more in front: each stream is counted by itself, and one that is not read is checked too
    (
        &[
            (1, "CREATE STREAM r (v BIGINT) FROM 'r'; CREATE STREAM s ("),
            (64, "c# BIGINT, "),
            (1, "c64 BIGINT) FROM 's'; SELECT v FROM r OUTPUT APPEND;"),
        ],
        "TooMany at 822",
    ),
    // the 65th has another's name as well, and DoubleName comes first
    (
        &[
            (1, "CREATE STREAM s ("),
            (64, "c# BIGINT, "),
            (1, "c00 BIGINT) FROM 's'; SELECT c00 FROM s OUTPUT APPEND;"),
        ],
        "DoubleName at 785",
    ),
    // 44, and 14 for each of 64 items
    (
        &[
            (1, "CREATE STREAM s (v BIGINT) FROM 's'; SELECT "),
            (64, "v + 0 AS c#, "),
            (1, "v + 0 AS c64 FROM s OUTPUT APPEND;"),
        ],
        "TooMany at 940",
    ),
    // the second of the two names stands after the item's first token
    (
        &[
            (1, "CREATE STREAM s (v BIGINT) FROM 's'; SELECT "),
            (64, "v + 0 AS c#, "),
            (1, "v + 0 AS c00 FROM s OUTPUT APPEND;"),
        ],
        "TooMany at 940",
    ),
    // the item is an unknown column, and UnknownName comes first
    (
        &[
            (1, "CREATE STREAM s (v BIGINT) FROM 's'; SELECT "),
            (64, "v + 0 AS c#, "),
            (1, "x FROM s OUTPUT APPEND;"),
        ],
        "UnknownName at 940",
    ),
    // 17, 15 for each of 64 columns without the last comma, 49, and 5 for each of 64 groups
    (
        &[
            (1, "CREATE STREAM s ("),
            (63, "c# TIMESTAMP, "),
            (
                1,
                "c63 TIMESTAMP) FROM 's'; SELECT COUNT(*) AS n FROM s GROUP BY ",
            ),
            (64, "c#, "),
            (1, "WINDOW(c00, '1 minute') OUTPUT COMPLETE;"),
        ],
        "TooMany at 1344",
    ),
    // 25 for the window, and 5 for each of 63 columns
    (
        &[
            (1, "CREATE STREAM s ("),
            (63, "c# TIMESTAMP, "),
            (
                1,
                "c63 TIMESTAMP) FROM 's'; SELECT COUNT(*) AS n FROM s GROUP BY WINDOW(c00, '1 minute'), ",
            ),
            (63, "c#, "),
            (1, "c63 OUTPUT COMPLETE;"),
        ],
        "TooMany at 1364",
    ),
    // A stream's 65th column stands in front of this clause, so a 65th column here has another cause of its place:
    // 17, 12 for each of 64 columns without the last comma, 45, and 5 for each of 64.
    (
        &[
            (1, "CREATE STREAM s ("),
            (63, "c# BIGINT, "),
            (1, "c63 BIGINT) FROM 's'; SELECT c63 FROM s DEDUPLICATE BY "),
            (64, "c#, "),
            (1, "c07 OUTPUT APPEND;"),
        ],
        "DoubleName at 1148",
    ),
    (
        &[
            (1, "CREATE STREAM s ("),
            (63, "c# BIGINT, "),
            (1, "c63 BIGINT) FROM 's'; SELECT c63 FROM s DEDUPLICATE BY "),
            (64, "c#, "),
            (1, "x OUTPUT APPEND;"),
        ],
        "UnknownName at 1148",
    ),
    // 44, 17 for each of 64 aggregates without the last comma, and 15: SELECT and HAVING together
    (
        &[
            (1, "CREATE STREAM s (v BIGINT) FROM 's'; SELECT "),
            (63, "COUNT(*) AS c#, "),
            (
                1,
                "COUNT(*) AS c63 FROM s HAVING COUNT(*) > 0 OUTPUT COMPLETE;",
            ),
        ],
        "TooMany at 1145",
    ),
    // 44, and 26 for each two of 64
    (
        &[
            (1, "CREATE STREAM s (v BIGINT) FROM 's'; SELECT "),
            (32, "SUM(v) + COUNT(*) AS c#, "),
            (1, "MAX(v) AS c32 FROM s OUTPUT COMPLETE;"),
        ],
        "TooMany at 876",
    ),
    // 102, and 30 for each two of 64 equalities
    (
        &[
            (
                1,
                "CREATE STREAM l (k BIGINT) FROM 'l'; CREATE STREAM r (k BIGINT) FROM 'r'; SELECT l.k FROM l JOIN r ON ",
            ),
            (32, "(l.k = r.k AND l.k = r.k) AND "),
            (1, "l.k = r.k OUTPUT APPEND;"),
        ],
        "TooMany at 1062",
    ),
];

#[test]
fn one_more_is_refused(rt: HostRuntime) -> Result<(), Fail> {
    check(&rt, &BEYOND)
}
