//! Queries with a name that is unknown or doubled.

use crate::told::check;
use std::test::Fail;

static NAMES: [(&str, &str); 20] = [
    (
        "CREATE STREAM s (id BIGINT, v BIGINT, k STRING, ts TIMESTAMP, b BOOLEAN) FROM 's'; SELECT x FROM s OUTPUT APPEND;",
        "UnknownName at 90",
    ),
    (
        "CREATE STREAM s (id BIGINT, v BIGINT, k STRING, ts TIMESTAMP, b BOOLEAN) FROM 's'; SELECT 1 AS w FROM t OUTPUT APPEND;",
        "UnknownName at 102",
    ),
    (
        "CREATE STREAM s (id BIGINT, v BIGINT, k STRING, ts TIMESTAMP, b BOOLEAN) FROM 's'; SELECT s.x FROM s OUTPUT APPEND;",
        "UnknownName at 92",
    ),
    (
        "CREATE STREAM s (id BIGINT, v BIGINT, k STRING, ts TIMESTAMP, b BOOLEAN) FROM 's'; SELECT t.id FROM s OUTPUT APPEND;",
        "UnknownName at 90",
    ),
    (
        "CREATE STREAM s (id BIGINT, v BIGINT, k STRING, ts TIMESTAMP, b BOOLEAN) FROM 's'; SELECT t.x FROM s OUTPUT APPEND;",
        "UnknownName at 90",
    ),
    (
        "CREATE STREAM s (id BIGINT, v BIGINT, k STRING, ts TIMESTAMP, b BOOLEAN) FROM 's'; SELECT id FROM t OUTPUT APPEND;",
        "UnknownName at 90",
    ),
    (
        "CREATE STREAM s (id BIGINT, v BIGINT, k STRING, ts TIMESTAMP, b BOOLEAN) FROM 's'; SELECT id FROM s WHERE v > x OUTPUT APPEND;",
        "UnknownName at 110",
    ),
    (
        "CREATE STREAM s (id BIGINT, v BIGINT, k STRING, ts TIMESTAMP, b BOOLEAN) FROM 's'; SELECT id FROM s WHERE v IS NULL OR (V > 1) OUTPUT APPEND;",
        "UnknownName at 120",
    ),
    (
        "CREATE STREAM s (id BIGINT, v BIGINT, k STRING, ts TIMESTAMP, b BOOLEAN) FROM 's'; SELECT window_start FROM s OUTPUT APPEND;",
        "UnknownName at 90",
    ),
    (
        "CREATE STREAM s (id BIGINT, v BIGINT, k STRING, ts TIMESTAMP, b BOOLEAN) FROM 's'; SELECT k, window_end FROM s GROUP BY k OUTPUT COMPLETE;",
        "UnknownName at 93",
    ),
    (
        "CREATE STREAM s (id BIGINT, v BIGINT, k STRING, ts TIMESTAMP, b BOOLEAN) FROM 's'; SELECT COUNT(*) AS n FROM s WHERE window_start > ts GROUP BY WINDOW(ts, '5 minutes') OUTPUT COMPLETE;",
        "UnknownName at 117",
    ),
    (
        "CREATE STREAM s (id BIGINT, v BIGINT, k STRING, ts TIMESTAMP, b BOOLEAN) FROM 's'; SELECT MAX(window_start) AS m FROM s GROUP BY WINDOW(ts, '5 minutes') OUTPUT COMPLETE;",
        "UnknownName at 94",
    ),
    (
        "CREATE STREAM s (id BIGINT, v BIGINT, k STRING, ts TIMESTAMP, b BOOLEAN) FROM 's'; SELECT s.window_start FROM s GROUP BY WINDOW(ts, '5 minutes') OUTPUT COMPLETE;",
        "UnknownName at 92",
    ),
    (
        "CREATE STREAM s (id BIGINT, v BIGINT, k STRING, ts TIMESTAMP, b BOOLEAN) FROM 's'; SELECT COUNT(*) AS n FROM s GROUP BY x OUTPUT COMPLETE;",
        "UnknownName at 120",
    ),
    (
        "CREATE STREAM s (id BIGINT, v BIGINT, k STRING, ts TIMESTAMP, b BOOLEAN) FROM 's'; SELECT COUNT(*) AS n FROM s GROUP BY WINDOW(x, '5 minutes') OUTPUT COMPLETE;",
        "UnknownName at 127",
    ),
    (
        "CREATE STREAM s (id BIGINT, v BIGINT, k STRING, ts TIMESTAMP, b BOOLEAN) FROM 's'; SELECT id FROM s DEDUPLICATE BY id, x OUTPUT APPEND;",
        "UnknownName at 119",
    ),
    (
        "CREATE STREAM s (id BIGINT, v BIGINT, k STRING, ts TIMESTAMP, b BOOLEAN) FROM 's'; SELECT id FROM s ORDER BY x OUTPUT APPEND;",
        "UnknownName at 109",
    ),
    (
        "CREATE STREAM s (id BIGINT, v BIGINT, k STRING, ts TIMESTAMP, b BOOLEAN) FROM 's'; SELECT id AS w FROM s ORDER BY w, id OUTPUT APPEND;",
        "UnknownName at 117",
    ),
    (
        "CREATE STREAM s (id BIGINT, v BIGINT, k STRING, ts TIMESTAMP, b BOOLEAN) FROM 's'; SELECT k, COUNT(*) AS n FROM s GROUP BY k HAVING x > 1 OUTPUT COMPLETE;",
        "UnknownName at 132",
    ),
    (
        "CREATE STREAM s (id BIGINT) FROM 's' WATERMARK FOR x DELAY '1 second'; SELECT id FROM s OUTPUT APPEND;",
        "UnknownName at 51",
    ),
];

#[test]
fn names_are_refused(rt: HostRuntime) -> Result<(), Fail> {
    check(&rt, &NAMES)
}

static MORE_NAMES: [(&str, &str); 19] = [
    (
        "CREATE STREAM s (id BIGINT, v BIGINT, k STRING, ts TIMESTAMP, b BOOLEAN) FROM 's'; CREATE STREAM r (id BIGINT) FROM 'r' WATERMARK FOR x DELAY '1 second'; SELECT id FROM s OUTPUT APPEND;",
        "UnknownName at 134",
    ),
    (
        "CREATE STREAM l (id BIGINT, t TIMESTAMP, u TIMESTAMP) FROM 'l' WATERMARK FOR t DELAY '10 minutes'; CREATE STREAM r (id BIGINT, t TIMESTAMP, a BIGINT) FROM 'r' WATERMARK FOR t DELAY '10 minutes'; SELECT l.id FROM l JOIN t ON TRUE OUTPUT APPEND;",
        "UnknownName at 219",
    ),
    (
        "CREATE STREAM l (id BIGINT, t TIMESTAMP, u TIMESTAMP) FROM 'l' WATERMARK FOR t DELAY '10 minutes'; CREATE STREAM r (id BIGINT, t TIMESTAMP, a BIGINT) FROM 'r' WATERMARK FOR t DELAY '10 minutes'; SELECT l.id FROM l JOIN r ON l.id = r.x OUTPUT APPEND;",
        "UnknownName at 233",
    ),
    (
        "CREATE STREAM l (id BIGINT, t TIMESTAMP, u TIMESTAMP) FROM 'l' WATERMARK FOR t DELAY '10 minutes'; CREATE STREAM r (id BIGINT, t TIMESTAMP, a BIGINT) FROM 'r' WATERMARK FOR t DELAY '10 minutes'; SELECT l.id FROM l JOIN r ON l.id = s.id OUTPUT APPEND;",
        "UnknownName at 231",
    ),
    (
        "CREATE STREAM l (id BIGINT, t TIMESTAMP, u TIMESTAMP) FROM 'l' WATERMARK FOR t DELAY '10 minutes'; CREATE STREAM r (id BIGINT, t TIMESTAMP, a BIGINT) FROM 'r' WATERMARK FOR t DELAY '10 minutes'; SELECT r.id FROM l OUTPUT APPEND;",
        "UnknownName at 202",
    ),
    (
        "CREATE STREAM s (v BIGINT, v STRING) FROM 's'; SELECT v FROM s OUTPUT APPEND;",
        "DoubleName at 27",
    ),
    (
        "CREATE STREAM s (v BIGINT) FROM 's'; CREATE STREAM s (w BIGINT) FROM 'r'; SELECT v FROM s OUTPUT APPEND;",
        "DoubleName at 51",
    ),
    (
        "CREATE STREAM s (id BIGINT, v BIGINT, k STRING, ts TIMESTAMP, b BOOLEAN) FROM 's'; SELECT v, v FROM s OUTPUT APPEND;",
        "DoubleName at 93",
    ),
    (
        "CREATE STREAM s (id BIGINT, v BIGINT, k STRING, ts TIMESTAMP, b BOOLEAN) FROM 's'; SELECT v, id AS v FROM s OUTPUT APPEND;",
        "DoubleName at 99",
    ),
    (
        "CREATE STREAM s (id BIGINT, v BIGINT, k STRING, ts TIMESTAMP, b BOOLEAN) FROM 's'; SELECT v + 1 AS w, id + 1 AS w FROM s OUTPUT APPEND;",
        "DoubleName at 112",
    ),
    (
        "CREATE STREAM s (id BIGINT, v BIGINT, k STRING, ts TIMESTAMP, b BOOLEAN) FROM 's'; SELECT v, s.v FROM s OUTPUT APPEND;",
        "DoubleName at 95",
    ),
    (
        "CREATE STREAM s (id BIGINT, v BIGINT, k STRING, ts TIMESTAMP, b BOOLEAN) FROM 's'; SELECT k FROM s GROUP BY k, k OUTPUT COMPLETE;",
        "DoubleName at 111",
    ),
    (
        "CREATE STREAM s (id BIGINT, v BIGINT, k STRING, ts TIMESTAMP, b BOOLEAN) FROM 's'; SELECT k FROM s GROUP BY k, WINDOW(ts, '5 minutes'), k OUTPUT COMPLETE;",
        "DoubleName at 136",
    ),
    (
        "CREATE STREAM s (id BIGINT, v BIGINT, k STRING, ts TIMESTAMP, b BOOLEAN) FROM 's'; SELECT id FROM s DEDUPLICATE BY id, k, id OUTPUT APPEND;",
        "DoubleName at 122",
    ),
    (
        "CREATE STREAM l (id BIGINT, t TIMESTAMP, u TIMESTAMP) FROM 'l' WATERMARK FOR t DELAY '10 minutes'; CREATE STREAM r (id BIGINT, t TIMESTAMP, a BIGINT) FROM 'r' WATERMARK FOR t DELAY '10 minutes'; SELECT l.id FROM l JOIN l ON TRUE OUTPUT APPEND;",
        "DoubleName at 219",
    ),
    (
        "CREATE STREAM l (id BIGINT, t TIMESTAMP, u TIMESTAMP) FROM 'l' WATERMARK FOR t DELAY '10 minutes'; CREATE STREAM r (id BIGINT, t TIMESTAMP, a BIGINT) FROM 'r' WATERMARK FOR t DELAY '10 minutes'; SELECT id FROM l JOIN r ON TRUE OUTPUT APPEND;",
        "DoubleName at 202",
    ),
    (
        "CREATE STREAM l (id BIGINT, t TIMESTAMP, u TIMESTAMP) FROM 'l' WATERMARK FOR t DELAY '10 minutes'; CREATE STREAM r (id BIGINT, t TIMESTAMP, a BIGINT) FROM 'r' WATERMARK FOR t DELAY '10 minutes'; SELECT l.id FROM l JOIN r ON t IS NULL OUTPUT APPEND;",
        "DoubleName at 224",
    ),
    (
        "CREATE STREAM s (ts TIMESTAMP, window_start BIGINT) FROM 's'; SELECT COUNT(*) AS n FROM s GROUP BY WINDOW(ts, '5 minutes') OUTPUT COMPLETE;",
        "DoubleName at 99",
    ),
    (
        "CREATE STREAM s (ts TIMESTAMP, window_end BIGINT) FROM 's'; SELECT COUNT(*) AS n FROM s GROUP BY WINDOW(ts, '5 minutes') OUTPUT COMPLETE;",
        "DoubleName at 97",
    ),
];

#[test]
fn more_names_are_refused(rt: HostRuntime) -> Result<(), Fail> {
    check(&rt, &MORE_NAMES)
}
