//! Worked files: the queries that they are, or their first fault.

use ssq_ast::text;
use ssq_parse::parse;
use std::alloc::{AllocGlobal, Global};
use std::mem::ManuallyDrop;
use std::process::Abort;
use std::test::Fail;

/// `read`, or the fault of a file.
fn told(alloc: Global, file: &[u8]) -> Result<String, Fail> {
    match parse(alloc, file) {
        Ok(query) => {
            // It is not freed: the prover would take the tree apart.
            let _kept = ManuallyDrop::new(query);
            Ok(String::from_str(alloc, "read")?)
        }
        Err(fault) => Ok(format!(in alloc; "{fault}")?),
    }
}

fn check(rt: &(impl Abort + AllocGlobal), rows: &[(&str, &str)]) -> Result<(), Fail> {
    for (file, want) in rows {
        let found = told(rt.alloc(), file.as_bytes())?;
        assert_eq!(rt; found.as_str(), *want, "at {file}");
    }
    Ok(())
}

/// The canonical text of a file, or its fault.
fn shown(alloc: Global, file: &str) -> Result<String, Fail> {
    match parse(alloc, file.as_bytes()) {
        Ok(query) => Ok(text(alloc, &ManuallyDrop::new(query))?.into_string()),
        Err(fault) => Ok(format!(in alloc; "{fault}")?),
    }
}

/// A text that repeats a part.
fn repeated(
    alloc: Global,
    front: &str,
    part: &str,
    times: usize,
    back: &str,
) -> Result<String, Fail> {
    let mut text = String::from_str(alloc, front)?;
    for _turn in 0..times {
        text.push_str(part)?;
    }
    text.push_str(back)?;
    Ok(text)
}

static SELECTS: [(&str, &str); 39] = [
    ("", "Expected at 0"),
    ("SELECT", "Expected at 6"),
    ("SELECT v", "Expected at 8"),
    ("SELECT v FROM", "Expected at 13"),
    ("SELECT v FROM s", "Expected at 15"),
    ("SELECT v FROM s OUTPUT", "Expected at 22"),
    ("SELECT v FROM s OUTPUT APPEND", "Expected at 29"),
    ("SELECT v FROM s OUTPUT APPEND;", "read"),
    ("SELECT v FROM s OUTPUT APPEND;;", "Expected at 30"),
    ("SELECT v FROM s OUTPUT APPEND; ?", "BadChar at 31"),
    ("SELECT v FROM s OUTPUT APPEND; x ?", "Expected at 31"),
    ("SELECT v FROM s OUTPUT APPEND; -- ?", "read"),
    ("SELECT v FROM s OUTPUT ALL;", "Expected at 23"),
    ("SELECT v, FROM s", "Expected at 10"),
    ("SELECT v w FROM", "Expected at 9"),
    ("SELECT v + 1 FROM s", "Expected at 13"),
    ("SELECT (v) FROM s", "Expected at 11"),
    ("SELECT s. FROM", "Expected at 10"),
    ("SELECT s.v.w", "Expected at 10"),
    ("SELECT v AS FROM", "Expected at 12"),
    ("SELECT v AS 5", "Expected at 12"),
    ("SELECT DISTINCT DISTINCT v", "Expected at 16"),
    ("SELECT v FROM s GROUP v", "Expected at 22"),
    ("SELECT v FROM s GROUP BY WINDOW v", "Expected at 32"),
    ("SELECT v FROM s GROUP BY WINDOW(v)", "Expected at 33"),
    ("SELECT v FROM s DEDUPLICATE id", "Expected at 28"),
    ("SELECT v FROM s ORDER n", "Expected at 22"),
    ("SELECT v FROM s ORDER BY n + 1", "Expected at 27"),
    ("SELECT v FROM s LIMIT n", "Expected at 22"),
    ("SELECT v FROM s LIMIT 3 LIMIT 4", "Expected at 24"),
    ("SELECT v FROM s HAVING v WHERE v", "Expected at 25"),
    ("SELECT v FROM s INNER s", "Expected at 22"),
    ("SELECT v FROM s LEFT OUTER s", "Expected at 27"),
    ("SELECT v FROM s OUTER JOIN r", "Expected at 16"),
    ("SELECT v FROM s JOIN r WHERE", "Expected at 23"),
    ("CREATE STREAM s () FROM", "Expected at 17"),
    ("CREATE STREAM s (v INT)", "Expected at 19"),
    ("CREATE STREAM s (v BIGINT,)", "Expected at 26"),
    ("CREATE TABLE s", "Expected at 7"),
];

#[test]
fn reads_queries(rt: HostRuntime) -> Result<(), Fail> {
    check(&rt, &SELECTS)
}

static OTHERS: [(&str, &str); 42] = [
    ("CREATE STREAM s (v BIGINT) FROM s", "Expected at 32"),
    (
        "CREATE STREAM s (v BIGINT) FROM 's' WATERMARK v",
        "Expected at 46",
    ),
    (
        "CREATE STREAM s (v BIGINT) FROM 's' WATERMARK FOR v DELAY ''",
        "BadText at 58",
    ),
    (
        "CREATE STREAM s (v BIGINT) FROM 's' SELECT",
        "Expected at 36",
    ),
    ("CREATE STREAM s (v BIGINT) FROM 's';", "Expected at 36"),
    ("SELECT 9223372036854775808 AS w", "BadNumber at 7"),
    ("SELECT - 9223372036854775808 AS w", "BadNumber at 9"),
    ("SELECT 'a", "Unclosed at 7"),
    ("SELECT v FROM s WHERE v = 'it''s", "Unclosed at 26"),
    ("SELECT v = ''' AS w", "Unclosed at 11"),
    ("SELECT v ? FROM", "BadChar at 9"),
    ("SELECT ? v w", "BadChar at 7"),
    ("SELECT v ! = 1", "BadChar at 9"),
    ("SELECT v | v", "BadChar at 9"),
    ("SELECT v < > 1", "Expected at 11"),
    ("SELECT v --", "Expected at 11"),
    ("SELECT INTERVAL '0 seconds' AS w", "BadText at 16"),
    (
        "SELECT TIMESTAMP '2024-02-30T00:00:00Z' AS w",
        "BadText at 17",
    ),
    ("SELECT INTERVAL 5 AS w", "Expected at 16"),
    ("CREATE STREAM s (t TIMESTAMP '')", "Expected at 29"),
    ("SELECT v, '' FROM s", "Expected at 13"),
    ("SELECT TIMESTAMP v AS w", "Expected at 17"),
    (
        "SELECT v FROM s GROUP BY WINDOW(v, '5 apples')",
        "BadText at 35",
    ),
    (
        "SELECT v FROM s GROUP BY WINDOW(v, '5 minutes', '')",
        "BadText at 48",
    ),
    ("SELECT INTERVAL '' ? AS w", "BadText at 16"),
    ("SELECT a = b = c AS w", "Expected at 13"),
    ("SELECT a IS b", "Expected at 12"),
    ("SELECT a IS NOT b", "Expected at 16"),
    ("SELECT a IS NULL = b", "Expected at 17"),
    ("SELECT a BETWEEN 1 OR 2", "Expected at 19"),
    (
        "SELECT a BETWEEN 1 AND 2 AND b AS w FROM s OUTPUT UPDATE;",
        "read",
    ),
    (
        "SELECT NOT a = b AND NOT NOT c AS w FROM s OUTPUT UPDATE;",
        "read",
    ),
    ("SELECT - - 5 AS w FROM s OUTPUT UPDATE;", "read"),
    ("SELECT a + NOT b", "Expected at 11"),
    ("SELECT COUNT v", "Expected at 13"),
    ("SELECT COUNT() AS n", "Expected at 13"),
    ("SELECT SUM(*) AS n", "Expected at 11"),
    ("SELECT COUNT(* v", "Expected at 15"),
    ("SELECT (v AS", "Expected at 10"),
    ("SELECT )", "Expected at 7"),
    ("SELECT NULL AS w", "Expected at 7"),
    ("SELECT v || '", "Unclosed at 12"),
];

#[test]
fn tells_causes(rt: HostRuntime) -> Result<(), Fail> {
    check(&rt, &OTHERS)
}

static KEYWORDS: [&str; 47] = [
    "CREATE",
    "STREAM",
    "FROM",
    "WATERMARK",
    "FOR",
    "DELAY",
    "SELECT",
    "DISTINCT",
    "AS",
    "WHERE",
    "DEDUPLICATE",
    "GROUP",
    "BY",
    "HAVING",
    "ORDER",
    "ASC",
    "DESC",
    "LIMIT",
    "OUTPUT",
    "APPEND",
    "UPDATE",
    "COMPLETE",
    "INNER",
    "LEFT",
    "RIGHT",
    "OUTER",
    "JOIN",
    "ON",
    "AND",
    "OR",
    "NOT",
    "IS",
    "NULL",
    "BETWEEN",
    "INTERVAL",
    "TIMESTAMP",
    "BIGINT",
    "STRING",
    "BOOLEAN",
    "TRUE",
    "FALSE",
    "DIV",
    "WINDOW",
    "COUNT",
    "SUM",
    "MIN",
    "MAX",
];

#[test]
fn takes_no_keyword_as_a_name(rt: HostRuntime) -> Result<(), Fail> {
    for keyword in &KEYWORDS {
        let file = format!(in rt.alloc(); "SELECT v FROM {keyword} OUTPUT APPEND;")?;
        let found = told(rt.alloc(), file.as_bytes())?;
        assert_eq!(rt; found.as_str(), "Expected at 14", "at {keyword}");
    }
    Ok(())
}

/// A repeated part, how often, and what stands before and after all of them.
static DEEP: [(&str, &str, usize, &str, &str); 17] = [
    ("SELECT ", "(", 64, "v", "Expected at 72"),
    ("SELECT ", "(", 65, "v", "TooDeep at 71"),
    (
        "CREATE STREAM s (v BIGINT) FROM 's'; SELECT ",
        "(",
        65,
        "v",
        "TooDeep at 108",
    ),
    ("SELECT ", "(", 64, "COUNT(*)", "TooDeep at 76"),
    (
        "SELECT v",
        " + v",
        63,
        " AS w FROM s OUTPUT APPEND;",
        "read",
    ),
    (
        "SELECT v",
        " + v",
        64,
        " AS w FROM s OUTPUT APPEND;",
        "TooDeep at 261",
    ),
    ("SELECT v", " + v", 64, ")", "TooDeep at 261"),
    ("SELECT v", " + v", 64, " ?", "TooDeep at 261"),
    ("SELECT v", " + v", 63, " + )", "Expected at 263"),
    (
        "SELECT ",
        "NOT ",
        63,
        "v AS w FROM s OUTPUT APPEND;",
        "read",
    ),
    (
        "SELECT ",
        "NOT ",
        64,
        "v AS w FROM s OUTPUT APPEND;",
        "TooDeep at 7",
    ),
    (
        "SELECT ",
        "NOT ",
        65,
        "v AS w FROM s OUTPUT APPEND;",
        "TooDeep at 11",
    ),
    (
        "SELECT ",
        "- ",
        65,
        "v AS w FROM s OUTPUT APPEND;",
        "TooDeep at 9",
    ),
    ("SELECT ", "- ", 32000, ")", "Expected at 64007"),
    (
        "SELECT a BETWEEN v",
        " + v",
        63,
        " AND 1 AS w FROM s OUTPUT APPEND;",
        "TooDeep at 9",
    ),
    ("SELECT v", " + v", 63, " IS )", "TooDeep at 261"),
    (
        "SELECT SUM(v",
        " + v",
        63,
        ") + 1 AS w FROM s OUTPUT COMPLETE;",
        "read",
    ),
];

#[test]
fn bounds_depth(rt: HostRuntime) -> Result<(), Fail> {
    for (front, part, times, back, want) in &DEEP {
        let file = repeated(rt.alloc(), front, part, *times, back)?;
        let found = told(rt.alloc(), file.as_bytes())?;
        assert_eq!(rt; found.as_str(), *want, "at {times} times {part}");
    }
    Ok(())
}

#[test]
fn bounds_bytes(rt: HostRuntime) -> Result<(), Fail> {
    let long = repeated(rt.alloc(), "", " ", 65_536, "")?;
    assert_eq!(rt;
        told(rt.alloc(), long.as_bytes())?.as_str(),
        "Expected at 65536"
    );
    let longer = repeated(rt.alloc(), "?", " ", 65_536, "")?;
    assert_eq!(rt;
        told(rt.alloc(), longer.as_bytes())?.as_str(),
        "TooLong at 65536"
    );
    assert_eq!(rt; told(rt.alloc(), &[255, 63])?.as_str(), "NotUtf8 at 0");
    assert_eq!(rt; told(rt.alloc(), &[63, 39, 195])?.as_str(), "NotUtf8 at 2");
    Ok(())
}

/// Files that are canonical texts.
static CANONICAL: [&str; 12] = [
    "CREATE STREAM s (id BIGINT, v BIGINT) FROM 's'; SELECT id, v + 1 AS w FROM s WHERE v > 10 OUTPUT APPEND;",
    "CREATE STREAM s (ts TIMESTAMP) FROM 's' WATERMARK FOR ts DELAY '10 minutes'; SELECT window_start, COUNT(*) AS n FROM s GROUP BY WINDOW(ts, '5 minutes') OUTPUT APPEND;",
    "CREATE STREAM s (ts TIMESTAMP) FROM 's' WATERMARK FOR ts DELAY '10 minutes'; SELECT window_start, COUNT(*) AS n FROM s GROUP BY WINDOW(ts, '10 minutes', '5 minutes') OUTPUT APPEND;",
    "CREATE STREAM s (k STRING, v BIGINT) FROM 's'; SELECT k, SUM(v) AS t FROM s WHERE v > 0 GROUP BY k OUTPUT UPDATE;",
    "CREATE STREAM s (k STRING) FROM 's'; SELECT k, COUNT(*) AS n FROM s GROUP BY k ORDER BY n DESC OUTPUT COMPLETE;",
    "CREATE STREAM s (id BIGINT, ts TIMESTAMP, src STRING) FROM 's' WATERMARK FOR ts DELAY '10 minutes'; SELECT id, src FROM s DEDUPLICATE BY id, ts OUTPUT APPEND;",
    "CREATE STREAM l (id BIGINT, t TIMESTAMP) FROM 'l' WATERMARK FOR t DELAY '10 minutes'; CREATE STREAM r (id BIGINT, t TIMESTAMP) FROM 'r' WATERMARK FOR t DELAY '10 minutes'; SELECT l.id, l.t AS lt, r.t AS rt FROM l JOIN r ON l.id = r.id AND r.t BETWEEN l.t AND l.t + INTERVAL '1 hour' OUTPUT APPEND;",
    "SELECT l.id, r.t AS rt FROM l LEFT JOIN r ON l.id = r.id OUTPUT APPEND;",
    "SELECT k, SUM(v) AS t FROM s GROUP BY k HAVING SUM(v) > 1 OUTPUT UPDATE;",
    "SELECT DISTINCT id FROM s LIMIT 3 OUTPUT APPEND;",
    "SELECT a FROM s WHERE NOT (a <> 1 AND b = 2) OUTPUT APPEND;",
    "SELECT - - 5 AS w, a - (b - c) - d AS x, (a OR b) AND c AS y, - (a + b) AS z FROM s OUTPUT APPEND;",
];

#[test]
fn reads_canonical_texts(rt: HostRuntime) -> Result<(), Fail> {
    for file in &CANONICAL {
        let found = shown(rt.alloc(), file)?;
        assert_eq!(rt; found.as_str(), *file);
    }
    Ok(())
}

/// Files, and their canonical texts.
static WRITTEN: [(&str, &str); 9] = [
    (
        "select (v) as v, s.v As v,(a)+((b)) AS w from s output append;",
        "SELECT v, s.v, a + b AS w FROM s OUTPUT APPEND;",
    ),
    (
        "SELECT v FROM s where not (a!=1 and b=2) OUTPUT APPEND ;",
        "SELECT v FROM s WHERE NOT (a <> 1 AND b = 2) OUTPUT APPEND;",
    ),
    (
        "SELECT v FROM s INNER JOIN r ON a = b ORDER BY v ASC, w OUTPUT UPDATE;",
        "SELECT v FROM s JOIN r ON a = b ORDER BY v, w OUTPUT UPDATE;",
    ),
    (
        "SELECT v FROM s RIGHT OUTER JOIN r ON a = b OUTPUT UPDATE;",
        "SELECT v FROM s RIGHT JOIN r ON a = b OUTPUT UPDATE;",
    ),
    (
        "SELECT a OR b AND c OR d AS w FROM s OUTPUT UPDATE;",
        "SELECT a OR b AND c OR d AS w FROM s OUTPUT UPDATE;",
    ),
    (
        "SELECT (a OR (b AND c)) OR d AS w, a OR (b OR c) AS x FROM s OUTPUT UPDATE;",
        "SELECT a OR b AND c OR d AS w, a OR (b OR c) AS x FROM s OUTPUT UPDATE;",
    ),
    (
        "SELECT a BETWEEN b AND c AND d AS w, (a = b) = c AS x, (a IS NULL) IS NOT NULL AS y FROM s OUTPUT UPDATE;",
        "SELECT a BETWEEN b AND c AND d AS w, (a = b) = c AS x, (a IS NULL) IS NOT NULL AS y FROM s OUTPUT UPDATE;",
    ),
    (
        "SELECT 007 AS w, 'it''s' AS x, TRUE AS y, TIMESTAMP '2024-01-01T00:00:00Z' AS z FROM s OUTPUT UPDATE;",
        "SELECT 7 AS w, 'it''s' AS x, TRUE AS y, TIMESTAMP '2024-01-01T00:00:00Z' AS z FROM s OUTPUT UPDATE;",
    ),
    (
        "SELECT a * (b DIV c) % d || e AS w, (- a) * b AS x, - (a * b) AS y FROM s OUTPUT UPDATE;",
        "SELECT a * (b DIV c) % d || e AS w, - a * b AS x, - (a * b) AS y FROM s OUTPUT UPDATE;",
    ),
];

#[test]
fn prints_what_it_read(rt: HostRuntime) -> Result<(), Fail> {
    for (file, want) in &WRITTEN {
        let found = shown(rt.alloc(), file)?;
        assert_eq!(rt; found.as_str(), *want, "at {file}");
    }
    Ok(())
}
