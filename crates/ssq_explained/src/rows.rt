//! Queries, with their canonical texts and how they are run.

use crate::told::are_told;
use std::test::Fail;

static PLAIN_AND_GROUPS: [(&str, &str); 11] = [
    (
        "create stream s (id bigint, v bigint) from 's'; -- numbers\nselect id as id, (v + 1) as w from s where v > 10 output append;",
        "CREATE STREAM s (id BIGINT, v BIGINT) FROM 's'; SELECT id, v + 1 AS w FROM s WHERE v > 10 OUTPUT APPEND;\nshape Plain mode Append late none closes no\n",
    ),
    (
        "CREATE STREAM s (ts TIMESTAMP, u TIMESTAMP, k STRING, v BIGINT) FROM 's' WATERMARK FOR ts DELAY '10 minutes'; SELECT ts, v FROM s OUTPUT APPEND;",
        "CREATE STREAM s (ts TIMESTAMP, u TIMESTAMP, k STRING, v BIGINT) FROM 's' WATERMARK FOR ts DELAY '10 minutes'; SELECT ts, v FROM s OUTPUT APPEND;\nshape Plain mode Append late none closes no\n",
    ),
    (
        "CREATE STREAM s (id BIGINT, v BIGINT) FROM 's'; SELECT id, v + 1 AS w FROM s WHERE v > 10 OUTPUT UPDATE;",
        "CREATE STREAM s (id BIGINT, v BIGINT) FROM 's'; SELECT id, v + 1 AS w FROM s WHERE v > 10 OUTPUT UPDATE;\nshape Plain mode Update late none closes no\n",
    ),
    (
        "CREATE STREAM s (ts TIMESTAMP) FROM 's' WATERMARK FOR ts DELAY '10 minutes'; SELECT window_start, COUNT(*) AS n FROM s GROUP BY WINDOW(ts, '5 minutes') OUTPUT APPEND;",
        "CREATE STREAM s (ts TIMESTAMP) FROM 's' WATERMARK FOR ts DELAY '10 minutes'; SELECT window_start, COUNT(*) AS n FROM s GROUP BY WINDOW(ts, '5 minutes') OUTPUT APPEND;\nshape Group mode Append late window_end closes yes\n",
    ),
    (
        "CREATE STREAM s (ts TIMESTAMP, u TIMESTAMP, k STRING, v BIGINT) FROM 's' WATERMARK FOR ts DELAY '10 minutes'; SELECT window_end, k, SUM(v) AS t FROM s GROUP BY k, WINDOW(ts, '5 minutes', '1 minute') OUTPUT UPDATE;",
        "CREATE STREAM s (ts TIMESTAMP, u TIMESTAMP, k STRING, v BIGINT) FROM 's' WATERMARK FOR ts DELAY '10 minutes'; SELECT window_end, k, SUM(v) AS t FROM s GROUP BY k, WINDOW(ts, '5 minutes', '1 minute') OUTPUT UPDATE;\nshape Group mode Update late window_end closes no\n",
    ),
    (
        "CREATE STREAM s (ts TIMESTAMP, u TIMESTAMP, k STRING, v BIGINT) FROM 's' WATERMARK FOR ts DELAY '10 minutes'; SELECT window_start, COUNT ( * ) AS n FROM s GROUP BY WINDOW ( ts , '5 minutes' ) ORDER BY n DESC, window_start ASC OUTPUT COMPLETE;",
        "CREATE STREAM s (ts TIMESTAMP, u TIMESTAMP, k STRING, v BIGINT) FROM 's' WATERMARK FOR ts DELAY '10 minutes'; SELECT window_start, COUNT(*) AS n FROM s GROUP BY WINDOW(ts, '5 minutes') ORDER BY n DESC, window_start OUTPUT COMPLETE;\nshape Group mode Complete late window_end closes no\n",
    ),
    (
        "CREATE STREAM s (ts TIMESTAMP, u TIMESTAMP, k STRING, v BIGINT) FROM 's' WATERMARK FOR ts DELAY '10 minutes'; SELECT ts, COUNT(*) AS n FROM s GROUP BY ts OUTPUT APPEND;",
        "CREATE STREAM s (ts TIMESTAMP, u TIMESTAMP, k STRING, v BIGINT) FROM 's' WATERMARK FOR ts DELAY '10 minutes'; SELECT ts, COUNT(*) AS n FROM s GROUP BY ts OUTPUT APPEND;\nshape Group mode Append late ts closes yes\n",
    ),
    (
        "CREATE STREAM s (ts TIMESTAMP, u TIMESTAMP, k STRING, v BIGINT) FROM 's' WATERMARK FOR ts DELAY '10 minutes'; SELECT k, ts, MAX(v) AS m FROM s GROUP BY k, ts OUTPUT COMPLETE;",
        "CREATE STREAM s (ts TIMESTAMP, u TIMESTAMP, k STRING, v BIGINT) FROM 's' WATERMARK FOR ts DELAY '10 minutes'; SELECT k, ts, MAX(v) AS m FROM s GROUP BY k, ts OUTPUT COMPLETE;\nshape Group mode Complete late ts closes no\n",
    ),
    (
        "CREATE STREAM s (ts TIMESTAMP, u TIMESTAMP, k STRING, v BIGINT) FROM 's' WATERMARK FOR ts DELAY '10 minutes'; SELECT ts, window_start, COUNT(*) AS n FROM s GROUP BY ts, WINDOW(ts, '5 minutes') OUTPUT APPEND;",
        "CREATE STREAM s (ts TIMESTAMP, u TIMESTAMP, k STRING, v BIGINT) FROM 's' WATERMARK FOR ts DELAY '10 minutes'; SELECT ts, window_start, COUNT(*) AS n FROM s GROUP BY ts, WINDOW(ts, '5 minutes') OUTPUT APPEND;\nshape Group mode Append late window_end closes yes\n",
    ),
    (
        "CREATE STREAM s (ts TIMESTAMP, u TIMESTAMP, k STRING, v BIGINT) FROM 's' WATERMARK FOR ts DELAY '10 minutes'; SELECT ts, window_start, COUNT(*) AS n FROM s GROUP BY WINDOW(u, '5 minutes'), ts OUTPUT APPEND;",
        "CREATE STREAM s (ts TIMESTAMP, u TIMESTAMP, k STRING, v BIGINT) FROM 's' WATERMARK FOR ts DELAY '10 minutes'; SELECT ts, window_start, COUNT(*) AS n FROM s GROUP BY WINDOW(u, '5 minutes'), ts OUTPUT APPEND;\nshape Group mode Append late ts closes yes\n",
    ),
    (
        "CREATE STREAM s (ts TIMESTAMP, u TIMESTAMP, k STRING, v BIGINT) FROM 's' WATERMARK FOR ts DELAY '10 minutes'; SELECT window_start, COUNT(*) AS n FROM s GROUP BY WINDOW(u, '5 minutes') OUTPUT UPDATE;",
        "CREATE STREAM s (ts TIMESTAMP, u TIMESTAMP, k STRING, v BIGINT) FROM 's' WATERMARK FOR ts DELAY '10 minutes'; SELECT window_start, COUNT(*) AS n FROM s GROUP BY WINDOW(u, '5 minutes') OUTPUT UPDATE;\nshape Group mode Update late none closes no\n",
    ),
];

#[test]
fn plain_queries_and_groups_are_told(rt: HostRuntime) -> Result<(), Fail> {
    are_told(&rt, &PLAIN_AND_GROUPS)
}

static MORE: [(&str, &str); 11] = [
    (
        "CREATE STREAM s (k STRING, v BIGINT) FROM 's'; SELECT k, SUM(v) AS t FROM s WHERE v > 0 GROUP BY k OUTPUT UPDATE;",
        "CREATE STREAM s (k STRING, v BIGINT) FROM 's'; SELECT k, SUM(v) AS t FROM s WHERE v > 0 GROUP BY k OUTPUT UPDATE;\nshape Group mode Update late none closes no\n",
    ),
    (
        "CREATE STREAM s (ts TIMESTAMP, k STRING, v BIGINT) FROM 's'; SELECT window_start, COUNT(*) AS n FROM s GROUP BY WINDOW(ts, '1 hour') OUTPUT COMPLETE;",
        "CREATE STREAM s (ts TIMESTAMP, k STRING, v BIGINT) FROM 's'; SELECT window_start, COUNT(*) AS n FROM s GROUP BY WINDOW(ts, '1 hour') OUTPUT COMPLETE;\nshape Group mode Complete late none closes no\n",
    ),
    (
        "CREATE STREAM s (ts TIMESTAMP, u TIMESTAMP, k STRING, v BIGINT) FROM 's' WATERMARK FOR ts DELAY '10 minutes'; SELECT COUNT(*) AS n, MIN(ts) AS first FROM s OUTPUT COMPLETE;",
        "CREATE STREAM s (ts TIMESTAMP, u TIMESTAMP, k STRING, v BIGINT) FROM 's' WATERMARK FOR ts DELAY '10 minutes'; SELECT COUNT(*) AS n, MIN(ts) AS first FROM s OUTPUT COMPLETE;\nshape Group mode Complete late none closes no\n",
    ),
    (
        "CREATE STREAM s (ts TIMESTAMP, u TIMESTAMP, k STRING, v BIGINT) FROM 's' WATERMARK FOR ts DELAY '10 minutes'; SELECT k, v FROM s DEDUPLICATE BY k, ts OUTPUT APPEND;",
        "CREATE STREAM s (ts TIMESTAMP, u TIMESTAMP, k STRING, v BIGINT) FROM 's' WATERMARK FOR ts DELAY '10 minutes'; SELECT k, v FROM s DEDUPLICATE BY k, ts OUTPUT APPEND;\nshape Dedup mode Append late ts closes no\n",
    ),
    (
        "CREATE STREAM s (ts TIMESTAMP, u TIMESTAMP, k STRING, v BIGINT) FROM 's' WATERMARK FOR ts DELAY '10 minutes'; SELECT k, ts FROM s DEDUPLICATE BY k, u OUTPUT UPDATE;",
        "CREATE STREAM s (ts TIMESTAMP, u TIMESTAMP, k STRING, v BIGINT) FROM 's' WATERMARK FOR ts DELAY '10 minutes'; SELECT k, ts FROM s DEDUPLICATE BY k, u OUTPUT UPDATE;\nshape Dedup mode Update late none closes no\n",
    ),
    (
        "CREATE STREAM s (ts TIMESTAMP, k STRING, v BIGINT) FROM 's'; SELECT k FROM s DEDUPLICATE BY ts OUTPUT APPEND;",
        "CREATE STREAM s (ts TIMESTAMP, k STRING, v BIGINT) FROM 's'; SELECT k FROM s DEDUPLICATE BY ts OUTPUT APPEND;\nshape Dedup mode Append late none closes no\n",
    ),
    (
        "CREATE STREAM l (id BIGINT, t TIMESTAMP) FROM 'l' WATERMARK FOR t DELAY '10 minutes'; CREATE STREAM r (id BIGINT, t TIMESTAMP) FROM 'r' WATERMARK FOR t DELAY '5 minutes'; SELECT l.id, r.t AS rt FROM l INNER JOIN r ON l.id = r.id AND r.t BETWEEN l.t AND l.t + INTERVAL '1 hour' OUTPUT APPEND;",
        "CREATE STREAM l (id BIGINT, t TIMESTAMP) FROM 'l' WATERMARK FOR t DELAY '10 minutes'; CREATE STREAM r (id BIGINT, t TIMESTAMP) FROM 'r' WATERMARK FOR t DELAY '5 minutes'; SELECT l.id, r.t AS rt FROM l JOIN r ON l.id = r.id AND r.t BETWEEN l.t AND l.t + INTERVAL '1 hour' OUTPUT APPEND;\nshape Join mode Append late both closes no\n",
    ),
    (
        "CREATE STREAM l (id BIGINT, t TIMESTAMP) FROM 'l' WATERMARK FOR t DELAY '10 minutes'; CREATE STREAM r (id BIGINT, t TIMESTAMP) FROM 'r' WATERMARK FOR t DELAY '5 minutes'; SELECT l.id, r.t AS rt FROM l LEFT OUTER JOIN r ON l.id = r.id AND r.t BETWEEN l.t AND l.t + INTERVAL '1 hour' OUTPUT APPEND;",
        "CREATE STREAM l (id BIGINT, t TIMESTAMP) FROM 'l' WATERMARK FOR t DELAY '10 minutes'; CREATE STREAM r (id BIGINT, t TIMESTAMP) FROM 'r' WATERMARK FOR t DELAY '5 minutes'; SELECT l.id, r.t AS rt FROM l LEFT JOIN r ON l.id = r.id AND r.t BETWEEN l.t AND l.t + INTERVAL '1 hour' OUTPUT APPEND;\nshape Join mode Append late both closes yes\n",
    ),
    (
        "CREATE STREAM l (id BIGINT, t TIMESTAMP) FROM 'l' WATERMARK FOR t DELAY '10 minutes'; CREATE STREAM r (id BIGINT, t TIMESTAMP) FROM 'r' WATERMARK FOR t DELAY '5 minutes'; SELECT l.id, r.t AS rt FROM l RIGHT JOIN r ON r.t BETWEEN l.t AND l.t + INTERVAL '1 hour' OUTPUT APPEND;",
        "CREATE STREAM l (id BIGINT, t TIMESTAMP) FROM 'l' WATERMARK FOR t DELAY '10 minutes'; CREATE STREAM r (id BIGINT, t TIMESTAMP) FROM 'r' WATERMARK FOR t DELAY '5 minutes'; SELECT l.id, r.t AS rt FROM l RIGHT JOIN r ON r.t BETWEEN l.t AND l.t + INTERVAL '1 hour' OUTPUT APPEND;\nshape Join mode Append late both closes yes\n",
    ),
    (
        "CREATE STREAM l (id BIGINT, t TIMESTAMP) FROM 'l' WATERMARK FOR t DELAY '10 minutes'; CREATE STREAM r (id BIGINT, t TIMESTAMP) FROM 'r' WATERMARK FOR t DELAY '5 minutes'; SELECT l.id, r.t AS rt FROM l JOIN r ON l.id = r.id OUTPUT APPEND;",
        "CREATE STREAM l (id BIGINT, t TIMESTAMP) FROM 'l' WATERMARK FOR t DELAY '10 minutes'; CREATE STREAM r (id BIGINT, t TIMESTAMP) FROM 'r' WATERMARK FOR t DELAY '5 minutes'; SELECT l.id, r.t AS rt FROM l JOIN r ON l.id = r.id OUTPUT APPEND;\nshape Join mode Append late none closes no\n",
    ),
    (
        "CREATE STREAM l (id BIGINT, t TIMESTAMP) FROM 'l'; CREATE STREAM r (id BIGINT, t TIMESTAMP) FROM 'r'; SELECT l.id, r.t AS rt FROM l JOIN r ON l.id = r.id AND l.t < r.t OUTPUT APPEND;",
        "CREATE STREAM l (id BIGINT, t TIMESTAMP) FROM 'l'; CREATE STREAM r (id BIGINT, t TIMESTAMP) FROM 'r'; SELECT l.id, r.t AS rt FROM l JOIN r ON l.id = r.id AND l.t < r.t OUTPUT APPEND;\nshape Join mode Append late none closes no\n",
    ),
];

#[test]
fn more_groups_and_other_shapes_are_told(rt: HostRuntime) -> Result<(), Fail> {
    are_told(&rt, &MORE)
}
