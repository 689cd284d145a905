//! Queries whose clauses do not go together.

use crate::told::check;
use std::test::Fail;

static GROUPS: [(&str, &str); 20] = [
    (
        "CREATE STREAM s (id BIGINT, v BIGINT, k STRING, ts TIMESTAMP, b BOOLEAN) FROM 's'; SELECT k, v FROM s GROUP BY k OUTPUT COMPLETE;",
        "NotGrouped at 93",
    ),
    (
        "CREATE STREAM s (id BIGINT, v BIGINT, k STRING, ts TIMESTAMP, b BOOLEAN) FROM 's'; SELECT k, s.v FROM s GROUP BY k OUTPUT COMPLETE;",
        "NotGrouped at 93",
    ),
    (
        "CREATE STREAM s (id BIGINT, v BIGINT, k STRING, ts TIMESTAMP, b BOOLEAN) FROM 's'; SELECT COUNT(*) AS n, v AS w FROM s OUTPUT COMPLETE;",
        "NotGrouped at 105",
    ),
    (
        "CREATE STREAM s (id BIGINT, v BIGINT, k STRING, ts TIMESTAMP, b BOOLEAN) FROM 's'; SELECT COUNT(*) + v AS w FROM s OUTPUT COMPLETE;",
        "NotGrouped at 101",
    ),
    (
        "CREATE STREAM s (id BIGINT, v BIGINT, k STRING, ts TIMESTAMP, b BOOLEAN) FROM 's'; SELECT ts, COUNT(*) AS n FROM s GROUP BY WINDOW(ts, '5 minutes') OUTPUT COMPLETE;",
        "NotGrouped at 90",
    ),
    (
        "CREATE STREAM s (id BIGINT, v BIGINT, k STRING, ts TIMESTAMP, b BOOLEAN) FROM 's'; SELECT k FROM s GROUP BY k HAVING v > 1 OUTPUT COMPLETE;",
        "NotGrouped at 117",
    ),
    (
        "CREATE STREAM s (id BIGINT, v BIGINT, k STRING, ts TIMESTAMP, b BOOLEAN) FROM 's'; SELECT v FROM s HAVING v > 1 OUTPUT APPEND;",
        "NotGrouped at 99",
    ),
    (
        "CREATE STREAM s (id BIGINT, v BIGINT, k STRING, ts TIMESTAMP, b BOOLEAN) FROM 's'; SELECT id FROM s WHERE SUM(v) > 1 OUTPUT APPEND;",
        "AggregateHere at 106",
    ),
    (
        "CREATE STREAM s (id BIGINT, v BIGINT, k STRING, ts TIMESTAMP, b BOOLEAN) FROM 's'; SELECT id FROM s WHERE COUNT(*) > 1 OUTPUT APPEND;",
        "AggregateHere at 106",
    ),
    (
        "CREATE STREAM s (id BIGINT, v BIGINT, k STRING, ts TIMESTAMP, b BOOLEAN) FROM 's'; SELECT SUM(SUM(v)) AS t FROM s OUTPUT COMPLETE;",
        "AggregateHere at 94",
    ),
    (
        "CREATE STREAM s (id BIGINT, v BIGINT, k STRING, ts TIMESTAMP, b BOOLEAN) FROM 's'; SELECT MAX(1 + COUNT(*)) AS m FROM s OUTPUT COMPLETE;",
        "AggregateHere at 98",
    ),
    (
        "CREATE STREAM l (id BIGINT, t TIMESTAMP, u TIMESTAMP) FROM 'l' WATERMARK FOR t DELAY '10 minutes'; CREATE STREAM r (id BIGINT, t TIMESTAMP, a BIGINT) FROM 'r' WATERMARK FOR t DELAY '10 minutes'; SELECT l.id FROM l JOIN r ON COUNT(*) = 1 OUTPUT APPEND;",
        "AggregateHere at 224",
    ),
    (
        "CREATE STREAM s (id BIGINT, v BIGINT, k STRING, ts TIMESTAMP, b BOOLEAN) FROM 's'; CREATE STREAM r (id BIGINT, t TIMESTAMP, a BIGINT) FROM 'r'; CREATE STREAM q (x BIGINT) FROM 'q'; SELECT id FROM s OUTPUT APPEND;",
        "TooMany at 144",
    ),
    (
        "CREATE STREAM s (id BIGINT, v BIGINT, k STRING, ts TIMESTAMP, b BOOLEAN) FROM 's'; SELECT COUNT(*) AS n FROM s GROUP BY WINDOW(ts, '65 seconds', '1 second') OUTPUT COMPLETE;",
        "TooMany at 120",
    ),
    (
        "CREATE STREAM s (id BIGINT, v BIGINT, k STRING, ts TIMESTAMP, b BOOLEAN) FROM 's'; SELECT COUNT(*) AS n FROM s GROUP BY WINDOW(ts, '1 minute', '2 minutes') OUTPUT COMPLETE;",
        "BadWindow at 120",
    ),
    (
        "CREATE STREAM s (id BIGINT, v BIGINT, k STRING, ts TIMESTAMP, b BOOLEAN) FROM 's'; SELECT COUNT(*) AS n FROM s GROUP BY WINDOW(ts, '1 minute'), WINDOW(ts, '2 minutes') OUTPUT COMPLETE;",
        "BadWindow at 144",
    ),
    (
        "CREATE STREAM l (id BIGINT, t TIMESTAMP, u TIMESTAMP) FROM 'l' WATERMARK FOR t DELAY '10 minutes'; CREATE STREAM r (id BIGINT, t TIMESTAMP, a BIGINT) FROM 'r' WATERMARK FOR t DELAY '10 minutes'; SELECT l.id FROM l JOIN r ON l.t BETWEEN r.t AND r.t + INTERVAL '1 hour' OUTPUT APPEND;",
        "BadBound at 228",
    ),
    (
        "CREATE STREAM l (id BIGINT, t TIMESTAMP, u TIMESTAMP) FROM 'l' WATERMARK FOR t DELAY '10 minutes'; CREATE STREAM r (id BIGINT, t TIMESTAMP, a BIGINT) FROM 'r' WATERMARK FOR t DELAY '10 minutes'; SELECT l.id FROM l JOIN r ON r.t BETWEEN l.t AND l.t - INTERVAL '1 hour' OUTPUT APPEND;",
        "BadBound at 228",
    ),
    (
        "CREATE STREAM l (id BIGINT, t TIMESTAMP, u TIMESTAMP) FROM 'l' WATERMARK FOR t DELAY '10 minutes'; CREATE STREAM r (id BIGINT, t TIMESTAMP, a BIGINT) FROM 'r' WATERMARK FOR t DELAY '10 minutes'; SELECT l.id FROM l JOIN r ON r.t BETWEEN l.t + INTERVAL '1 hour' AND l.t OUTPUT APPEND;",
        "BadBound at 228",
    ),
    (
        "CREATE STREAM l (id BIGINT, t TIMESTAMP, u TIMESTAMP) FROM 'l' WATERMARK FOR t DELAY '10 minutes'; CREATE STREAM r (id BIGINT, t TIMESTAMP, a BIGINT) FROM 'r' WATERMARK FOR t DELAY '10 minutes'; SELECT l.id FROM l JOIN r ON r.t BETWEEN l.t AND l.u OUTPUT APPEND;",
        "BadBound at 228",
    ),
];

#[test]
fn clauses_are_refused(rt: HostRuntime) -> Result<(), Fail> {
    check(&rt, &GROUPS)
}

static MORE_GROUPS: [(&str, &str); 14] = [
    (
        "CREATE STREAM l (id BIGINT, t TIMESTAMP, u TIMESTAMP) FROM 'l' WATERMARK FOR t DELAY '10 minutes'; CREATE STREAM r (id BIGINT, t TIMESTAMP, a BIGINT) FROM 'r' WATERMARK FOR t DELAY '10 minutes'; SELECT l.id FROM l JOIN r ON r.t BETWEEN l.u AND l.u OUTPUT APPEND;",
        "BadBound at 228",
    ),
    (
        "CREATE STREAM l (id BIGINT, t TIMESTAMP, u TIMESTAMP) FROM 'l' WATERMARK FOR t DELAY '10 minutes'; CREATE STREAM r (id BIGINT, t TIMESTAMP, a BIGINT) FROM 'r' WATERMARK FOR t DELAY '10 minutes'; SELECT l.id FROM l JOIN r ON r.a BETWEEN l.id AND l.id OUTPUT APPEND;",
        "BadBound at 228",
    ),
    (
        "CREATE STREAM l (id BIGINT, t TIMESTAMP, u TIMESTAMP) FROM 'l' WATERMARK FOR t DELAY '10 minutes'; CREATE STREAM r (id BIGINT, t TIMESTAMP, a BIGINT) FROM 'r' WATERMARK FOR t DELAY '10 minutes'; SELECT l.id FROM l JOIN r ON r.t BETWEEN l.t AND l.t AND r.t BETWEEN l.t AND l.t OUTPUT APPEND;",
        "BadBound at 256",
    ),
    (
        "CREATE STREAM l (id BIGINT, t TIMESTAMP, u TIMESTAMP) FROM 'l' WATERMARK FOR t DELAY '10 minutes'; CREATE STREAM r (id BIGINT, t TIMESTAMP, a BIGINT) FROM 'r' WATERMARK FOR t DELAY '10 minutes'; SELECT l.id FROM l JOIN r ON l.id = r.id AND l.id BETWEEN 1 AND 2 OUTPUT APPEND;",
        "BadBound at 245",
    ),
    (
        "CREATE STREAM l (id BIGINT, t TIMESTAMP, u TIMESTAMP) FROM 'l' WATERMARK FOR t DELAY '10 minutes'; CREATE STREAM r (id BIGINT, t TIMESTAMP, a BIGINT) FROM 'r'; SELECT l.id FROM l JOIN r ON r.t BETWEEN l.u AND l.u OUTPUT APPEND;",
        "BadBound at 193",
    ),
    (
        "CREATE STREAM l (id BIGINT, t TIMESTAMP, u TIMESTAMP) FROM 'l' WATERMARK FOR t DELAY '10 minutes'; CREATE STREAM r (id BIGINT, t TIMESTAMP, a BIGINT) FROM 'r' WATERMARK FOR t DELAY '10 minutes'; SELECT l.id FROM l JOIN r ON l.id = r.id DEDUPLICATE BY u OUTPUT APPEND;",
        "TwoStateful at 236",
    ),
    (
        "CREATE STREAM l (id BIGINT, t TIMESTAMP, u TIMESTAMP) FROM 'l' WATERMARK FOR t DELAY '10 minutes'; CREATE STREAM r (id BIGINT, t TIMESTAMP, a BIGINT) FROM 'r' WATERMARK FOR t DELAY '10 minutes'; SELECT COUNT(*) AS n FROM l JOIN r ON l.id = r.id GROUP BY u OUTPUT APPEND;",
        "TwoStateful at 245",
    ),
    (
        "CREATE STREAM l (id BIGINT, t TIMESTAMP, u TIMESTAMP) FROM 'l' WATERMARK FOR t DELAY '10 minutes'; CREATE STREAM r (id BIGINT, t TIMESTAMP, a BIGINT) FROM 'r' WATERMARK FOR t DELAY '10 minutes'; SELECT COUNT(*) AS n FROM l JOIN r ON l.id = r.id OUTPUT APPEND;",
        "TwoStateful at 202",
    ),
    (
        "CREATE STREAM s (id BIGINT, v BIGINT, k STRING, ts TIMESTAMP, b BOOLEAN) FROM 's'; SELECT k FROM s DEDUPLICATE BY k GROUP BY k OUTPUT APPEND;",
        "TwoStateful at 116",
    ),
    (
        "CREATE STREAM s (id BIGINT, v BIGINT, k STRING, ts TIMESTAMP, b BOOLEAN) FROM 's'; SELECT COUNT(*) AS n FROM s DEDUPLICATE BY k OUTPUT APPEND;",
        "TwoStateful at 90",
    ),
    (
        "CREATE STREAM s (id BIGINT, v BIGINT, k STRING, ts TIMESTAMP, b BOOLEAN) FROM 's'; SELECT DISTINCT id FROM s OUTPUT APPEND;",
        "Distinct at 90",
    ),
    (
        "CREATE STREAM s (id BIGINT, v BIGINT, k STRING, ts TIMESTAMP, b BOOLEAN) FROM 's'; SELECT DISTINCT x FROM s LIMIT 3 OUTPUT APPEND;",
        "Distinct at 90",
    ),
    (
        "CREATE STREAM s (id BIGINT, v BIGINT, k STRING, ts TIMESTAMP, b BOOLEAN) FROM 's'; SELECT id FROM s LIMIT 3 OUTPUT APPEND;",
        "Limit at 100",
    ),
    (
        "CREATE STREAM s (id BIGINT, v BIGINT, k STRING, ts TIMESTAMP, b BOOLEAN) FROM 's'; SELECT x FROM s LIMIT 3 OUTPUT APPEND;",
        "UnknownName at 90",
    ),
];

#[test]
fn more_clauses_are_refused(rt: HostRuntime) -> Result<(), Fail> {
    check(&rt, &MORE_GROUPS)
}
