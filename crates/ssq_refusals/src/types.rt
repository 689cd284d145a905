//! Queries with an operation on other types than it takes.

use crate::told::check;
use std::test::Fail;

static TYPES: [(&str, &str); 20] = [
    (
        "CREATE STREAM s (id BIGINT, v BIGINT, k STRING, ts TIMESTAMP, b BOOLEAN) FROM 's'; SELECT k + 1 AS w FROM s OUTPUT APPEND;",
        "WrongType at 92",
    ),
    (
        "CREATE STREAM s (id BIGINT, v BIGINT, k STRING, ts TIMESTAMP, b BOOLEAN) FROM 's'; SELECT 1 * b AS w FROM s OUTPUT APPEND;",
        "WrongType at 92",
    ),
    (
        "CREATE STREAM s (id BIGINT, v BIGINT, k STRING, ts TIMESTAMP, b BOOLEAN) FROM 's'; SELECT v || k AS w FROM s OUTPUT APPEND;",
        "WrongType at 92",
    ),
    (
        "CREATE STREAM s (id BIGINT, v BIGINT, k STRING, ts TIMESTAMP, b BOOLEAN) FROM 's'; SELECT -k AS w FROM s OUTPUT APPEND;",
        "WrongType at 90",
    ),
    (
        "CREATE STREAM s (id BIGINT, v BIGINT, k STRING, ts TIMESTAMP, b BOOLEAN) FROM 's'; SELECT k DIV 2 AS w FROM s OUTPUT APPEND;",
        "WrongType at 92",
    ),
    (
        "CREATE STREAM s (id BIGINT, v BIGINT, k STRING, ts TIMESTAMP, b BOOLEAN) FROM 's'; SELECT v % k AS w FROM s OUTPUT APPEND;",
        "WrongType at 92",
    ),
    (
        "CREATE STREAM s (id BIGINT, v BIGINT, k STRING, ts TIMESTAMP, b BOOLEAN) FROM 's'; SELECT 1 + (k - 1) AS w FROM s OUTPUT APPEND;",
        "WrongType at 97",
    ),
    (
        "CREATE STREAM s (id BIGINT, v BIGINT, k STRING, ts TIMESTAMP, b BOOLEAN) FROM 's'; SELECT id FROM s WHERE NOT v OUTPUT APPEND;",
        "WrongType at 106",
    ),
    (
        "CREATE STREAM s (id BIGINT, v BIGINT, k STRING, ts TIMESTAMP, b BOOLEAN) FROM 's'; SELECT id FROM s WHERE b AND v OUTPUT APPEND;",
        "WrongType at 108",
    ),
    (
        "CREATE STREAM s (id BIGINT, v BIGINT, k STRING, ts TIMESTAMP, b BOOLEAN) FROM 's'; SELECT id FROM s WHERE k OR b OUTPUT APPEND;",
        "WrongType at 108",
    ),
    (
        "CREATE STREAM s (id BIGINT, v BIGINT, k STRING, ts TIMESTAMP, b BOOLEAN) FROM 's'; SELECT id FROM s WHERE v = k OUTPUT APPEND;",
        "WrongType at 108",
    ),
    (
        "CREATE STREAM s (id BIGINT, v BIGINT, k STRING, ts TIMESTAMP, b BOOLEAN) FROM 's'; SELECT id FROM s WHERE b < 1 OUTPUT APPEND;",
        "WrongType at 108",
    ),
    (
        "CREATE STREAM s (id BIGINT, v BIGINT, k STRING, ts TIMESTAMP, b BOOLEAN) FROM 's'; SELECT id FROM s WHERE ts > '2024-01-01T00:00:00Z' OUTPUT APPEND;",
        "WrongType at 109",
    ),
    (
        "CREATE STREAM s (id BIGINT, v BIGINT, k STRING, ts TIMESTAMP, b BOOLEAN) FROM 's'; SELECT id FROM s WHERE v BETWEEN 1 AND 'a' OUTPUT APPEND;",
        "WrongType at 108",
    ),
    (
        "CREATE STREAM s (id BIGINT, v BIGINT, k STRING, ts TIMESTAMP, b BOOLEAN) FROM 's'; SELECT id FROM s WHERE v OUTPUT APPEND;",
        "WrongType at 100",
    ),
    (
        "CREATE STREAM s (id BIGINT, v BIGINT, k STRING, ts TIMESTAMP, b BOOLEAN) FROM 's'; SELECT k FROM s GROUP BY k HAVING COUNT(*) OUTPUT COMPLETE;",
        "WrongType at 110",
    ),
    (
        "CREATE STREAM l (id BIGINT, t TIMESTAMP, u TIMESTAMP) FROM 'l' WATERMARK FOR t DELAY '10 minutes'; CREATE STREAM r (id BIGINT, t TIMESTAMP, a BIGINT) FROM 'r' WATERMARK FOR t DELAY '10 minutes'; SELECT l.id FROM l JOIN r ON l.id OUTPUT APPEND;",
        "WrongType at 221",
    ),
    (
        "CREATE STREAM s (id BIGINT, v BIGINT, k STRING, ts TIMESTAMP, b BOOLEAN) FROM 's'; SELECT SUM(k) AS t FROM s OUTPUT COMPLETE;",
        "WrongType at 90",
    ),
    (
        "CREATE STREAM s (id BIGINT, v BIGINT, k STRING, ts TIMESTAMP, b BOOLEAN) FROM 's'; SELECT SUM(v + k) AS t FROM s OUTPUT COMPLETE;",
        "WrongType at 96",
    ),
    (
        "CREATE STREAM s (id BIGINT, v BIGINT, k STRING, ts TIMESTAMP, b BOOLEAN) FROM 's'; SELECT SUM(ts) AS t FROM s OUTPUT COMPLETE;",
        "WrongType at 90",
    ),
];

#[test]
fn types_are_refused(rt: HostRuntime) -> Result<(), Fail> {
    check(&rt, &TYPES)
}

static MORE_TYPES: [(&str, &str); 17] = [
    (
        "CREATE STREAM s (id BIGINT, v BIGINT, k STRING, ts TIMESTAMP, b BOOLEAN) FROM 's'; SELECT INTERVAL '1 day' AS w FROM s OUTPUT APPEND;",
        "WrongType at 90",
    ),
    (
        "CREATE STREAM s (id BIGINT, v BIGINT, k STRING, ts TIMESTAMP, b BOOLEAN) FROM 's'; SELECT v + INTERVAL '1 day' AS w FROM s OUTPUT APPEND;",
        "WrongType at 94",
    ),
    (
        "CREATE STREAM s (id BIGINT, v BIGINT, k STRING, ts TIMESTAMP, b BOOLEAN) FROM 's'; SELECT INTERVAL '1 day' + ts AS w FROM s OUTPUT APPEND;",
        "WrongType at 90",
    ),
    (
        "CREATE STREAM s (id BIGINT, v BIGINT, k STRING, ts TIMESTAMP, b BOOLEAN) FROM 's'; SELECT MIN(INTERVAL '1 day') AS w FROM s OUTPUT COMPLETE;",
        "WrongType at 94",
    ),
    (
        "CREATE STREAM s (id BIGINT, v BIGINT, k STRING, ts TIMESTAMP, b BOOLEAN) FROM 's'; SELECT ts + 1 AS w FROM s OUTPUT APPEND;",
        "WrongType at 93",
    ),
    (
        "CREATE STREAM s (id BIGINT, v BIGINT, k STRING, ts TIMESTAMP, b BOOLEAN) FROM 's'; SELECT ts - ts AS w FROM s OUTPUT APPEND;",
        "WrongType at 93",
    ),
    (
        "CREATE STREAM s (id BIGINT, v BIGINT, k STRING, ts TIMESTAMP, b BOOLEAN) FROM 's'; SELECT ts * INTERVAL '1 day' AS w FROM s OUTPUT APPEND;",
        "WrongType at 95",
    ),
    (
        "CREATE STREAM s (id BIGINT) FROM 's' WATERMARK FOR id DELAY '1 second'; SELECT id FROM s OUTPUT APPEND;",
        "WrongType at 51",
    ),
    (
        "CREATE STREAM s (id BIGINT, v BIGINT, k STRING, ts TIMESTAMP, b BOOLEAN) FROM 's'; SELECT COUNT(*) AS n FROM s GROUP BY WINDOW(v, '5 minutes') OUTPUT COMPLETE;",
        "WrongType at 127",
    ),
    (
        "CREATE STREAM s (id BIGINT, v BIGINT, k STRING, ts TIMESTAMP, b BOOLEAN) FROM 's'; SELECT v DIV 0 AS w FROM s OUTPUT APPEND;",
        "BadDivisor at 96",
    ),
    (
        "CREATE STREAM s (id BIGINT, v BIGINT, k STRING, ts TIMESTAMP, b BOOLEAN) FROM 's'; SELECT v % 0 AS w FROM s OUTPUT APPEND;",
        "BadDivisor at 94",
    ),
    (
        "CREATE STREAM s (id BIGINT, v BIGINT, k STRING, ts TIMESTAMP, b BOOLEAN) FROM 's'; SELECT v DIV v AS w FROM s OUTPUT APPEND;",
        "BadDivisor at 96",
    ),
    (
        "CREATE STREAM s (id BIGINT, v BIGINT, k STRING, ts TIMESTAMP, b BOOLEAN) FROM 's'; SELECT v DIV -0 AS w FROM s OUTPUT APPEND;",
        "BadDivisor at 96",
    ),
    (
        "CREATE STREAM s (id BIGINT, v BIGINT, k STRING, ts TIMESTAMP, b BOOLEAN) FROM 's'; SELECT v DIV (0) AS w FROM s OUTPUT APPEND;",
        "BadDivisor at 96",
    ),
    (
        "CREATE STREAM s (id BIGINT, v BIGINT, k STRING, ts TIMESTAMP, b BOOLEAN) FROM 's'; SELECT v DIV (1 + 1) AS w FROM s OUTPUT APPEND;",
        "BadDivisor at 96",
    ),
    (
        "CREATE STREAM s (id BIGINT, v BIGINT, k STRING, ts TIMESTAMP, b BOOLEAN) FROM 's'; SELECT v DIV -(-2) AS w FROM s OUTPUT APPEND;",
        "BadDivisor at 96",
    ),
    (
        "CREATE STREAM s (id BIGINT, v BIGINT, k STRING, ts TIMESTAMP, b BOOLEAN) FROM 's'; SELECT v DIV 2 DIV 0 AS w FROM s OUTPUT APPEND;",
        "BadDivisor at 102",
    ),
];

#[test]
fn more_types_are_refused(rt: HostRuntime) -> Result<(), Fail> {
    check(&rt, &MORE_TYPES)
}
