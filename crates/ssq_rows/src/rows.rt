//! Each row is a query, the logs of its parts, the files of a checkpoint and the words, with the output, the status and the files that have
//! to come of them.

use ssq_outside::Name;

pub(crate) type Files = &'static [(Name, &'static [u8])];

#[derive(Clone, Copy)]
pub(crate) struct Row {
    pub(crate) words: &'static [&'static str],
    pub(crate) query: &'static [u8],
    pub(crate) before: Files,
    pub(crate) parts: &'static [&'static [u8]],
    pub(crate) out: &'static [u8],
    pub(crate) status: u8,
    pub(crate) after: Files,
}

pub(crate) const FILTER: &[u8] =
    b"CREATE STREAM s (id BIGINT, v BIGINT) FROM 's';\nSELECT id, v + 1 AS w FROM s WHERE v > 10 OUTPUT APPEND;\n";

pub(crate) const ONE_AND_TORN: &[u8] = b"{\"id\":1,\"v\":11}\n{\"id\":3,\"v\":20}";

pub(crate) const TWO_WHOLE: &[u8] = b"{\"id\":1,\"v\":11}\n{\"id\":3,\"v\":20}\n";

pub(crate) const TWO: &[u8] = b"{\"id\":1,\"v\":11}\n{\"id\":2,\"v\":5}\n";

pub(crate) const THREE: &[u8] = b"{\"id\":1,\"v\":11}\n{\"id\":2,\"v\":5}\n{\"id\":3,\"v\":20}\n";

pub(crate) const FOUR: &[u8] =
    b"{\"id\":1,\"v\":11}\n{\"id\":2,\"v\":5}\n{\"id\":3,\"v\":20}\n{\"id\":4,\"v\":30}\n";

pub(crate) const RUN: &[&str] = &["ssq", "run", "q.sql"];

pub(crate) const BY_TWO: &[&str] = &["ssq", "run", "q.sql", "--max-lines", "2"];

pub(crate) const STATUS: &[&str] = &["ssq", "status", "q.sql"];

pub(crate) const META: (Name, &[u8]) = (
    Name::Meta,
    b"v1\npartitions 1\nparts 0 1\nquery 104\nCREATE STREAM s (id BIGINT, v BIGINT) FROM 's'; SELECT id, v + 1 AS w FROM s WHERE v > 10 OUTPUT APPEND;\nend\n",
);

pub(crate) const PLAN_0: (Name, &[u8]) = (
    Name::Plan(0),
    b"v1\nplan 0\nwatermark none\npart 0 0 2\nend\n",
);

pub(crate) const PLAN_1: (Name, &[u8]) = (
    Name::Plan(1),
    b"v1\nplan 1\nwatermark none\npart 0 0 3\nend\n",
);

pub(crate) const PLAN_2: (Name, &[u8]) = (
    Name::Plan(2),
    b"v1\nplan 2\nwatermark none\npart 0 0 4\nend\n",
);

pub(crate) const SHORT_0: (Name, &[u8]) = (
    Name::Plan(0),
    b"v1\nplan 0\nwatermark none\npart 0 0 1\nend\n",
);

pub(crate) const SHORT_1: (Name, &[u8]) = (
    Name::Plan(1),
    b"v1\nplan 1\nwatermark none\npart 0 0 2\nend\n",
);

pub(crate) const COMMIT_0: (Name, &[u8]) = (Name::Commit(0), b"v1\ncommit 0\nend\n");

pub(crate) const COMMIT_1: (Name, &[u8]) = (Name::Commit(1), b"v1\ncommit 1\nend\n");

pub(crate) const COMMIT_2: (Name, &[u8]) = (Name::Commit(2), b"v1\ncommit 2\nend\n");

pub(crate) const OUT_0: (Name, &[u8]) = (Name::Out(0), b"{\"id\":1,\"w\":12}\n");

pub(crate) const OUT_1: (Name, &[u8]) = (Name::Out(1), b"{\"id\":3,\"w\":21}\n");

pub(crate) const OUT_2: (Name, &[u8]) = (Name::Out(2), b"{\"id\":4,\"w\":31}\n");

/// The files of the first row.
pub(crate) const DONE: Files = &[META, PLAN_0, PLAN_1, COMMIT_0, COMMIT_1, OUT_0, OUT_1];

/// The same, before the second epoch was committed.
pub(crate) const HALF: Files = &[META, PLAN_0, PLAN_1, COMMIT_0, OUT_0, OUT_1];

/// The same, with one epoch more.
pub(crate) const MORE: Files = &[
    META, PLAN_0, PLAN_1, PLAN_2, COMMIT_0, COMMIT_1, COMMIT_2, OUT_0, OUT_1, OUT_2,
];

/// The files of the first row but its first plan.
const WITHOUT_PLAN_0: Files = &[META, PLAN_1, COMMIT_0, COMMIT_1, OUT_0, OUT_1];

pub(crate) const META_UPDATE: (Name, &[u8]) = (
    Name::Meta,
    b"v1\npartitions 1\nparts 0 1\nquery 104\nCREATE STREAM s (id BIGINT, v BIGINT) FROM 's'; SELECT id, v + 1 AS w FROM s WHERE v > 10 OUTPUT UPDATE;\nend\n",
);

pub(crate) const META_NONE: (Name, &[u8]) = (
    Name::Meta,
    b"v1\npartitions 1\nparts 0 0\nquery 104\nCREATE STREAM s (id BIGINT, v BIGINT) FROM 's'; SELECT id, v + 1 AS w FROM s WHERE v > 10 OUTPUT APPEND;\nend\n",
);

pub(crate) const TIMED: &[u8] =
    b"CREATE STREAM s (id BIGINT, ts TIMESTAMP) FROM 's' WATERMARK FOR ts DELAY '10 minutes';\nSELECT id FROM s OUTPUT APPEND;\n";

pub(crate) const TIMES: &[&[u8]] = &[
    b"{\"id\":1,\"ts\":\"2024-01-01T12:03:00Z\"}\n{\"id\":4,\"ts\":\"2024-01-01T12:20:00Z\"}\n",
    b"{\"id\":2,\"ts\":\"2024-01-01T12:16:00Z\"}\n",
    b"{\"id\":3,\"ts\":\"2024-01-01T12:02:00Z\"}\n",
];

pub(crate) const TIMED_FILES: Files = &[
    (
        Name::Meta,
        b"v1\npartitions 1\nparts 0 3\nquery 119\nCREATE STREAM s (id BIGINT, ts TIMESTAMP) FROM 's' WATERMARK FOR ts DELAY '10 minutes'; SELECT id FROM s OUTPUT APPEND;\nend\n",
    ),
    (
        Name::Plan(0),
        b"v1\nplan 0\nwatermark none\npart 0 0 1\npart 0 1 1\npart 0 2 1\nend\n",
    ),
    (
        Name::Plan(1),
        b"v1\nplan 1\nwatermark 2024-01-01T12:06:00Z\npart 0 0 2\npart 0 1 1\npart 0 2 1\nend\n",
    ),
    (
        Name::Commit(0),
        b"v1\ncommit 0\nseen 0 2024-01-01T12:16:00Z\nend\n",
    ),
    (
        Name::Commit(1),
        b"v1\ncommit 1\nseen 0 2024-01-01T12:20:00Z\nend\n",
    ),
    (Name::Out(0), b"{\"id\":1}\n{\"id\":2}\n{\"id\":3}\n"),
    (Name::Out(1), b"{\"id\":4}\n"),
];

/// A time below the watermark of its epoch, in the last line of the first part.
pub(crate) const BEHIND: &[&[u8]] = &[
    b"{\"id\":1,\"ts\":\"2024-01-01T12:03:00Z\"}\n{\"id\":2,\"ts\":\"2024-01-01T12:16:00Z\"}\n{\"id\":3,\"ts\":\"2024-01-01T12:02:00Z\"}\n",
    b"{\"id\":4,\"ts\":\"2024-01-01T12:04:00Z\"}\n",
];

pub(crate) const BEHIND_FILES: Files = &[
    (
        Name::Meta,
        b"v1\npartitions 1\nparts 0 2\nquery 119\nCREATE STREAM s (id BIGINT, ts TIMESTAMP) FROM 's' WATERMARK FOR ts DELAY '10 minutes'; SELECT id FROM s OUTPUT APPEND;\nend\n",
    ),
    (
        Name::Plan(0),
        b"v1\nplan 0\nwatermark none\npart 0 0 1\npart 0 1 1\nend\n",
    ),
    (
        Name::Plan(1),
        b"v1\nplan 1\nwatermark 2024-01-01T11:54:00Z\npart 0 0 2\npart 0 1 1\nend\n",
    ),
    (
        Name::Plan(2),
        b"v1\nplan 2\nwatermark 2024-01-01T12:06:00Z\npart 0 0 3\npart 0 1 1\nend\n",
    ),
    (
        Name::Commit(0),
        b"v1\ncommit 0\nseen 0 2024-01-01T12:04:00Z\nend\n",
    ),
    (
        Name::Commit(1),
        b"v1\ncommit 1\nseen 0 2024-01-01T12:16:00Z\nend\n",
    ),
    (
        Name::Commit(2),
        b"v1\ncommit 2\nseen 0 2024-01-01T12:16:00Z\nend\n",
    ),
    (Name::Out(0), b"{\"id\":1}\n{\"id\":4}\n"),
    (Name::Out(1), b"{\"id\":2}\n"),
    (Name::Out(2), b"{\"id\":3}\n"),
];

/// Keys by how often they stand.
pub(crate) const ORDERED: &[u8] =
    b"CREATE STREAM s (k STRING) FROM 's'; SELECT k, COUNT(*) AS n FROM s GROUP BY k ORDER BY n DESC OUTPUT COMPLETE;";

pub(crate) const QA: &[u8] =
    b"CREATE STREAM s (ts TIMESTAMP) FROM 's' WATERMARK FOR ts DELAY '10 minutes'; SELECT window_start, COUNT(*) AS n FROM s GROUP BY WINDOW(ts, '5 minutes') OUTPUT APPEND;";

pub(crate) const BY_ONE: &[&str] = &["ssq", "run", "q.sql", "--max-lines", "1"];

pub(crate) const OVERFLOWS: &[u8] =
    b"{\"id\":1,\"v\":11}\n{\"id\":2,\"v\":12}\n{\"id\":3,\"v\":9223372036854775807}\n";

pub(crate) const TORN_ROW: &[u8] =
    b"{\"id\":1,\"v\":1}\n{\"id\":2,\"v\":1}\n{\"id\":3,\"v\":1}\n{\"id\":4,\"v\":1}\n{\"id\":5,\"v\":1}\n{\n";

pub(crate) const META_TWO: (Name, &[u8]) = (
    Name::Meta,
    b"v1\npartitions 1\nparts 0 2\nquery 104\nCREATE STREAM s (id BIGINT, v BIGINT) FROM 's'; SELECT id, v + 1 AS w FROM s WHERE v > 10 OUTPUT APPEND;\nend\n",
);

pub(crate) const PLAN_TWO: (Name, &[u8]) = (
    Name::Plan(0),
    b"v1\nplan 0\nwatermark none\npart 0 0 3\npart 0 1 6\nend\n",
);

/// The files of one short epoch.
pub(crate) const SHORT: Files = &[META, SHORT_0, COMMIT_0, OUT_0];

pub(crate) const TOLD: &[u8] =
    b"epoch 0 lines 2 watermark none rows 1\nepoch 1 lines 1 watermark none rows 1\ndone epochs 2\n";

pub(crate) const FAULT: &[u8] = b"stopped 7 DiskFault\n";

/// The worked runs. A function that names the table itself has all of it in its proof.
pub(crate) fn worked_runs() -> &'static [Row; 14] {
    &WORKED
}

static WORKED: [Row; 14] = [
    Row {
        words: BY_TWO,
        query: FILTER,
        before: &[],
        parts: &[THREE],
        out: TOLD,
        status: 0,
        after: DONE,
    },
    // A round that finds nothing new tells nothing.
    Row {
        words: &["ssq", "run", "q.sql", "--max-lines", "2", "--rounds", "2"],
        query: FILTER,
        before: &[],
        parts: &[THREE],
        out: TOLD,
        status: 0,
        after: DONE,
    },
    // No line: the job's record alone.
    Row {
        words: RUN,
        query: FILTER,
        before: &[],
        parts: &[b""],
        out: b"done epochs 0\n",
        status: 0,
        after: &[META],
    },
    // A last line without its end is not there; once it has its end it is.
    Row {
        words: RUN,
        query: FILTER,
        before: &[],
        parts: &[ONE_AND_TORN],
        out: b"epoch 0 lines 1 watermark none rows 1\ndone epochs 1\n",
        status: 0,
        after: SHORT,
    },
    Row {
        words: RUN,
        query: FILTER,
        before: SHORT,
        parts: &[TWO_WHOLE],
        out: b"epoch 1 lines 1 watermark none rows 1\ndone epochs 2\n",
        status: 0,
        after: &[META, SHORT_0, SHORT_1, COMMIT_0, COMMIT_1, OUT_0, OUT_1],
    },
    // The planned epoch is finished at its logged end, though the log has grown.
    Row {
        words: RUN,
        query: FILTER,
        before: HALF,
        parts: &[FOUR],
        out: b"epoch 1 lines 1 watermark none rows 1\nepoch 2 lines 1 watermark none rows 1\ndone epochs 3\n",
        status: 0,
        after: MORE,
    },
    Row {
        words: STATUS,
        query: FILTER,
        before: DONE,
        parts: &[b""],
        out: b"partitions 1\nplanned 2\ncommitted 2\nwatermark none\npart 0 0 3\n",
        status: 0,
        after: DONE,
    },
    Row {
        words: STATUS,
        query: FILTER,
        before: &[],
        parts: &[THREE],
        out: b"no checkpoint\n",
        status: 0,
        after: &[],
    },
    // A query that keeps nothing shows the same rows in Update.
    Row {
        words: BY_TWO,
        query: b"CREATE STREAM s (id BIGINT, v BIGINT) FROM 's';\nSELECT id, v + 1 AS w FROM s WHERE v > 10 OUTPUT UPDATE;\n",
        before: &[],
        parts: &[THREE],
        out: TOLD,
        status: 0,
        after: &[
            META_UPDATE,
            PLAN_0,
            PLAN_1,
            COMMIT_0,
            COMMIT_1,
            OUT_0,
            OUT_1,
        ],
    },
    // No part is there.
    Row {
        words: RUN,
        query: FILTER,
        before: &[],
        parts: &[],
        out: b"done epochs 0\n",
        status: 0,
        after: &[META_NONE],
    },
    // Three parts with a watermark: each epoch takes at most one line of each, and the watermark of the second is that of the first's times.
    Row {
        words: BY_ONE,
        query: TIMED,
        before: &[],
        parts: TIMES,
        out: b"epoch 0 lines 3 watermark none rows 3\nepoch 1 lines 1 watermark 2024-01-01T12:06:00Z rows 1\ndone epochs 2\n",
        status: 0,
        after: TIMED_FILES,
    },
    Row {
        words: STATUS,
        query: TIMED,
        before: TIMED_FILES,
        parts: &[],
        out: b"partitions 1\nplanned 2\ncommitted 2\nwatermark 2024-01-01T12:06:00Z\npart 0 0 2\npart 0 1 1\npart 0 2 1\n",
        status: 0,
        after: TIMED_FILES,
    },
    // A plain query has no late rows: that of 12:02 is shown, though the watermark of its epoch is above it.
    Row {
        words: BY_ONE,
        query: TIMED,
        before: &[],
        parts: BEHIND,
        out: b"epoch 0 lines 2 watermark none rows 2\nepoch 1 lines 1 watermark 2024-01-01T11:54:00Z rows 1\nepoch 2 lines 1 watermark 2024-01-01T12:06:00Z rows 1\ndone epochs 3\n",
        status: 0,
        after: BEHIND_FILES,
    },
    Row {
        words: &["ssq", "explain", "q.sql"],
        query: QA,
        before: &[],
        parts: &[],
        out: b"CREATE STREAM s (ts TIMESTAMP) FROM 's' WATERMARK FOR ts DELAY '10 minutes'; SELECT window_start, COUNT(*) AS n FROM s GROUP BY WINDOW(ts, '5 minutes') OUTPUT APPEND;\nshape Group mode Append late window_end closes yes\n",
        status: 0,
        after: &[],
    },
];

pub(crate) static REFUSED: [Row; 13] = [
    // Blanks are no row, other fields are ignored, and the first bad line stops its epoch.
    Row {
        words: BY_TWO,
        query: FILTER,
        before: &[],
        parts: &[b"  \n{\"id\":1,\"v\":11,\"x\":[1.5]}\n{\"id\":\"7\",\"v\":1}\n"],
        out: b"epoch 0 lines 2 watermark none rows 1\nstopped 4 BadLine s 0 2 WrongType id\n",
        status: 4,
        after: &[META, PLAN_0, PLAN_1, COMMIT_0, OUT_0],
    },
    Row {
        words: RUN,
        query: FILTER,
        before: &[],
        parts: &[b"{\"id\":3,\"v\":9223372036854775807}\n"],
        out: b"stopped 5 Overflow s 0 0\n",
        status: 5,
        after: &[META, SHORT_0],
    },
    Row {
        words: RUN,
        query: b"CREATE STREAM s (id BIGINT, v BIGINT) FROM 's';\nSELECT id, v + 1 AS w FROM s WHERE v > 11 OUTPUT APPEND;\n",
        before: DONE,
        parts: &[THREE],
        out: b"stopped 9 OtherQuery CREATE STREAM s (id BIGINT, v BIGINT) FROM 's'; SELECT id, v + 1 AS w FROM s WHERE v > 10 OUTPUT APPEND;\n",
        status: 9,
        after: DONE,
    },
    Row {
        words: RUN,
        query: ORDERED,
        before: DONE,
        parts: &[THREE],
        out: b"stopped 9 OtherQuery CREATE STREAM s (id BIGINT, v BIGINT) FROM 's'; SELECT id, v + 1 AS w FROM s WHERE v > 10 OUTPUT APPEND;\n",
        status: 9,
        after: DONE,
    },
    Row {
        words: RUN,
        query: FILTER,
        before: DONE,
        parts: &[TWO],
        out: b"stopped 9 LogShort s 0 3 2\n",
        status: 9,
        after: DONE,
    },
    Row {
        words: RUN,
        query: FILTER,
        before: WITHOUT_PLAN_0,
        parts: &[THREE],
        out: b"stopped 9 Damaged offsets/0\n",
        status: 9,
        after: WITHOUT_PLAN_0,
    },
    Row {
        words: &["ssq", "walk", "q.sql"],
        query: FILTER,
        before: &[],
        parts: &[b""],
        out: b"stopped 2 Usage\n",
        status: 2,
        after: &[],
    },
    Row {
        words: &["ssq", "run", "q.sql", "--max-lines", "0"],
        query: FILTER,
        before: &[],
        parts: &[b""],
        out: b"stopped 2 Usage\n",
        status: 2,
        after: &[],
    },
    Row {
        words: RUN,
        query: b"SELECT id FROM s OUTPUT APPEND;",
        before: &[],
        parts: &[b""],
        out: b"stopped 3 UnknownName at 7\n",
        status: 3,
        after: &[],
    },
    // Another number of partitions than is kept, and a part more.
    Row {
        words: &["ssq", "run", "q.sql", "--partitions", "4"],
        query: FILTER,
        before: DONE,
        parts: &[THREE],
        out: b"stopped 9 OtherPartitions 1 4\n",
        status: 9,
        after: DONE,
    },
    Row {
        words: RUN,
        query: FILTER,
        before: DONE,
        parts: &[THREE, b""],
        out: b"stopped 9 OtherParts s 1 2\n",
        status: 9,
        after: DONE,
    },
    // Of two parts with a fault each, the one of the first part is told, and told again by a further run.
    Row {
        words: RUN,
        query: FILTER,
        before: &[],
        parts: &[OVERFLOWS, TORN_ROW],
        out: b"stopped 5 Overflow s 0 2\n",
        status: 5,
        after: &[META_TWO, PLAN_TWO],
    },
    Row {
        words: RUN,
        query: FILTER,
        before: &[META_TWO, PLAN_TWO],
        parts: &[OVERFLOWS, TORN_ROW],
        out: b"stopped 5 Overflow s 0 2\n",
        status: 5,
        after: &[META_TWO, PLAN_TWO],
    },
];
