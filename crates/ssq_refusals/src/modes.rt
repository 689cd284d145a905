//! Queries that are accepted or not run in their mode, and files that are no query.

use crate::told::check;
use std::test::Fail;

static MODES: [(&str, &str); 20] = [
    (
        "CREATE STREAM s (ts TIMESTAMP) FROM 's'; SELECT window_start, COUNT(*) AS n FROM s GROUP BY WINDOW(ts, '5 minutes') OUTPUT APPEND;",
        "AppendNeedsWatermark",
    ),
    (
        "CREATE STREAM s (k STRING, v BIGINT) FROM 's'; SELECT k, COUNT(*) AS n FROM s GROUP BY k OUTPUT APPEND;",
        "AppendNeedsWatermark",
    ),
    (
        "CREATE STREAM s (ts TIMESTAMP) FROM 's' WATERMARK FOR ts DELAY '10 minutes'; SELECT COUNT(*) AS n FROM s OUTPUT APPEND;",
        "AppendNeedsWatermark",
    ),
    (
        "CREATE STREAM s (id BIGINT, v BIGINT) FROM 's'; SELECT id, v + 1 AS w FROM s WHERE v > 10 OUTPUT COMPLETE;",
        "CompleteNeedsAggregate",
    ),
    (
        "CREATE STREAM s (k STRING, v BIGINT) FROM 's'; SELECT k FROM s DEDUPLICATE BY k OUTPUT COMPLETE;",
        "CompleteNeedsAggregate",
    ),
    (
        "CREATE STREAM l (id BIGINT, t TIMESTAMP) FROM 'l' WATERMARK FOR t DELAY '10 minutes'; CREATE STREAM r (id BIGINT, t TIMESTAMP) FROM 'r' WATERMARK FOR t DELAY '10 minutes'; SELECT l.id, l.t AS lt, r.t AS rt FROM l JOIN r ON l.id = r.id AND r.t BETWEEN l.t AND l.t + INTERVAL '1 hour' OUTPUT UPDATE;",
        "JoinNeedsAppend",
    ),
    (
        "CREATE STREAM l (id BIGINT, t TIMESTAMP) FROM 'l' WATERMARK FOR t DELAY '10 minutes'; CREATE STREAM r (id BIGINT, t TIMESTAMP) FROM 'r' WATERMARK FOR t DELAY '10 minutes'; SELECT l.id, l.t AS lt, r.t AS rt FROM l JOIN r ON l.id = r.id AND r.t BETWEEN l.t AND l.t + INTERVAL '1 hour' OUTPUT COMPLETE;",
        "CompleteNeedsAggregate",
    ),
    (
        "CREATE STREAM l (id BIGINT, t TIMESTAMP) FROM 'l' WATERMARK FOR t DELAY '10 minutes'; CREATE STREAM r (id BIGINT, t TIMESTAMP) FROM 'r' WATERMARK FOR t DELAY '10 minutes'; SELECT l.id, r.t AS rt FROM l LEFT JOIN r ON l.id = r.id OUTPUT APPEND;",
        "OuterNeedsBound",
    ),
    (
        "CREATE STREAM l (id BIGINT, t TIMESTAMP) FROM 'l' WATERMARK FOR t DELAY '10 minutes'; CREATE STREAM r (id BIGINT, t TIMESTAMP) FROM 'r' WATERMARK FOR t DELAY '10 minutes'; SELECT l.id, r.t AS rt FROM l RIGHT OUTER JOIN r ON l.id = r.id OUTPUT UPDATE;",
        "JoinNeedsAppend",
    ),
    (
        "CREATE STREAM l (id BIGINT, t TIMESTAMP) FROM 'l' WATERMARK FOR t DELAY '10 minutes'; CREATE STREAM r (id BIGINT, t TIMESTAMP) FROM 'r'; SELECT l.id, l.t AS lt, r.t AS rt FROM l JOIN r ON l.id = r.id AND r.t BETWEEN l.t AND l.t + INTERVAL '1 hour' OUTPUT APPEND;",
        "BoundNeedsWatermark",
    ),
    (
        "CREATE STREAM s (k STRING) FROM 's'; SELECT k, COUNT(*) AS n FROM s GROUP BY k ORDER BY n DESC OUTPUT UPDATE;",
        "SortNeedsComplete",
    ),
    (
        "CREATE STREAM s (id BIGINT) FROM 's'; SELECT id FROM s ORDER BY id OUTPUT APPEND;",
        "SortNeedsComplete",
    ),
    (
        "CREATE STREAM s (k STRING, v BIGINT) FROM 's'; SELECT k, SUM(v) AS t FROM s WHERE v > 0 GROUP BY k HAVING SUM(v) > 1 OUTPUT UPDATE;",
        "HavingInUpdate",
    ),
    (
        "CREATE STREAM s (k STRING, v BIGINT) FROM 's'; SELECT SUM(v) AS t FROM s WHERE v > 0 GROUP BY k OUTPUT UPDATE;",
        "KeyNotShown",
    ),
    (
        "CREATE STREAM s (k STRING, v BIGINT) FROM 's'; SELECT k || 'x' AS k FROM s GROUP BY k OUTPUT UPDATE;",
        "KeyNotShown",
    ),
    (
        "CREATE STREAM s (ts TIMESTAMP) FROM 's' WATERMARK FOR ts DELAY '10 minutes'; SELECT COUNT(*) AS n FROM s GROUP BY WINDOW(ts, '5 minutes') OUTPUT UPDATE;",
        "KeyNotShown",
    ),
    (
        "CREATE STREAM s (id BIGINT) FROM 's';\nSELECT id FROM s LIMIT 3 OUTPUT APPEND;",
        "Limit at 55",
    ),
    (
        "CREATE STREAM s (id BIGINT) FROM 's';\nSELECT DISTINCT id FROM s OUTPUT APPEND;",
        "Distinct at 45",
    ),
    (
        "CREATE STREAM s (ts TIMESTAMP) FROM 's' WATERMARK FOR ts DELAY '10 minutes'; SELECT window_start, COUNT(*) AS n FROM s GROUP BY WINDOW(ts, '5 minutes') OUTPUT APPEND;",
        "accepted",
    ),
    (
        "CREATE STREAM s (k STRING, v BIGINT) FROM 's'; SELECT k, SUM(v) AS t FROM s WHERE v > 0 GROUP BY k OUTPUT UPDATE;",
        "accepted",
    ),
];

#[test]
fn modes_are_refused(rt: HostRuntime) -> Result<(), Fail> {
    check(&rt, &MODES)
}

static MORE_MODES: [(&str, &str); 14] = [
    (
        "CREATE STREAM s (k STRING) FROM 's'; SELECT k, COUNT(*) AS n FROM s GROUP BY k ORDER BY n DESC OUTPUT COMPLETE;",
        "accepted",
    ),
    (
        "CREATE STREAM s (id BIGINT, ts TIMESTAMP, src STRING) FROM 's' WATERMARK FOR ts DELAY '10 minutes'; SELECT id, src FROM s DEDUPLICATE BY id, ts OUTPUT APPEND;",
        "accepted",
    ),
    (
        "CREATE STREAM l (id BIGINT, t TIMESTAMP) FROM 'l' WATERMARK FOR t DELAY '10 minutes'; CREATE STREAM r (id BIGINT, t TIMESTAMP) FROM 'r' WATERMARK FOR t DELAY '10 minutes'; SELECT l.id, l.t AS lt, r.t AS rt FROM l JOIN r ON l.id = r.id AND r.t BETWEEN l.t AND l.t + INTERVAL '1 hour' OUTPUT APPEND;",
        "accepted",
    ),
    (
        "CREATE STREAM l (id BIGINT, t TIMESTAMP) FROM 'l' WATERMARK FOR t DELAY '10 minutes'; CREATE STREAM r (id BIGINT, t TIMESTAMP) FROM 'r' WATERMARK FOR t DELAY '10 minutes'; SELECT l.id, r.t AS rt FROM l LEFT JOIN r ON l.id = r.id AND r.t BETWEEN l.t AND l.t + INTERVAL '1 hour' OUTPUT APPEND;",
        "accepted",
    ),
    (
        "CREATE STREAM s (id BIGINT, v BIGINT) FROM 's'; SELECT id, v + 1 AS w FROM s WHERE v > 10 OUTPUT APPEND;",
        "accepted",
    ),
    (
        "CREATE STREAM s (id BIGINT, v BIGINT) FROM 's'; SELECT id, v + 1 AS w FROM s WHERE v > 10 OUTPUT UPDATE;",
        "accepted",
    ),
    (
        "CREATE STREAM s (ts TIMESTAMP) FROM 's' WATERMARK FOR ts DELAY '10 minutes'; SELECT ts FROM s OUTPUT APPEND;",
        "accepted",
    ),
    ("", "Expected at 0"),
    (
        "CREATE STREAM s (id BIGINT, v BIGINT) FROM 's'; SELECT id, v + 1 AS w FROM s WHERE v > 10 OUTPUT NOW;",
        "Expected at 97",
    ),
    (
        "CREATE STREAM s (id BIGINT, v BIGINT) FROM 's'; SELECT id, v + 1 AS w FROM s WHERE v > 10 OUTPUT APPEND",
        "Expected at 103",
    ),
    (
        "CREATE STREAM s (id BIGINT) FROM 's' WATERMARK FOR id DELAY '0 seconds'; SELECT x FROM s OUTPUT APPEND;",
        "BadText at 60",
    ),
    (
        "CREATE STREAM s (id BIGINT, v BIGINT, k STRING, ts TIMESTAMP, b BOOLEAN) FROM 's'; SELECT x + 9223372036854775808 AS w FROM s OUTPUT APPEND;",
        "BadNumber at 94",
    ),
    (
        "CREATE STREAM s (id BIGINT, v BIGINT, k STRING, ts TIMESTAMP, b BOOLEAN) FROM 's'; SELECT x # FROM s OUTPUT APPEND;",
        "BadChar at 92",
    ),
    (
        "CREATE STREAM s (id BIGINT, v BIGINT, k STRING, ts TIMESTAMP, b BOOLEAN) FROM 's'; SELECT x FROM s WHERE k = 'a OUTPUT APPEND;",
        "Unclosed at 109",
    ),
];

#[test]
fn more_modes_are_refused(rt: HostRuntime) -> Result<(), Fail> {
    check(&rt, &MORE_MODES)
}
