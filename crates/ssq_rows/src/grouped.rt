//! Runs of queries with groups: tables as in `rows`, and others that tell the sink files alone.
//!
//! All times are of the first day of 2024.

use crate::rows::{BY_ONE, BY_TWO, Files, ORDERED, QA, RUN, Row, STATUS};
use ssq_outside::Name;

/// A run of a query with groups that is done to its end, and files that come of it: those of its sink.
#[derive(Clone, Copy)]
pub(crate) struct Shown {
    pub(crate) words: &'static [&'static str],
    pub(crate) query: &'static [u8],
    pub(crate) before: Files,
    pub(crate) parts: &'static [&'static [u8]],
    pub(crate) out: &'static [u8],
    pub(crate) files: Files,
}

pub(crate) const IN_THREE: &[&str] = &[
    "ssq",
    "run",
    "q.sql",
    "--max-lines",
    "1",
    "--partitions",
    "3",
];

pub(crate) const IN_FOUR: &[&str] = &[
    "ssq",
    "run",
    "q.sql",
    "--max-lines",
    "1",
    "--partitions",
    "4",
];

const BY_THREE: &[&str] = &["ssq", "run", "q.sql", "--max-lines", "3"];

const TWICE_BY_ONE: &[&str] = &["ssq", "run", "q.sql", "--max-lines", "1", "--rounds", "2"];

/// Two parts, and a row that comes after a later one of its part and is late.
const LATE: &[&[u8]] = &[
    b"{\"ts\":\"2024-01-01T12:03:00Z\"}\n{\"ts\":\"2024-01-01T12:16:00Z\"}\n{\"ts\":\"2024-01-01T12:02:00Z\"}\n",
    b"{\"ts\":\"2024-01-01T12:04:00Z\"}\n",
];

const TWO_TIMES: &[&[u8]] = &[
    b"{\"ts\":\"2024-01-01T12:03:00Z\"}\n{\"ts\":\"2024-01-01T12:16:00Z\"}\n",
];

const WINDOW_AT_TWELVE: &[u8] = b"{\"window_start\":\"2024-01-01T12:00:00Z\",\"n\":2}\n";

const ONE_AT_TWELVE: &[u8] = b"{\"window_start\":\"2024-01-01T12:00:00Z\",\"n\":1}\n";

const LATE_TOLD: &[u8] =
    b"epoch 0 lines 2 watermark none rows 0\nepoch 1 lines 1 watermark 2024-01-01T11:54:00Z rows 0\nepoch 2 lines 1 watermark 2024-01-01T12:06:00Z rows 1\ndone epochs 3\n";

const CLOSED_TOLD: &[u8] =
    b"epoch 0 lines 1 watermark none rows 0\nepoch 1 lines 1 watermark 2024-01-01T11:53:00Z rows 0\nepoch 2 lines 0 watermark 2024-01-01T12:06:00Z rows 1\ndone epochs 3\n";

/// The window at 12:00 is closed in epoch 2, and its key goes from the state.
const LATE_FILES: Files = &[
    (
        Name::Meta,
        b"v1\npartitions 1\nparts 0 2\nquery 166\nCREATE STREAM s (ts TIMESTAMP) FROM 's' WATERMARK FOR ts DELAY '10 minutes'; SELECT window_start, COUNT(*) AS n FROM s GROUP BY WINDOW(ts, '5 minutes') OUTPUT APPEND;\nend\n",
    ),
    (
        Name::Plan(0),
        b"v1\nplan 0\nwatermark none\npart 0 0 1\npart 0 1 1\nend\n",
    ),
    (
        Name::Plan(1),
        b"v1\nplan 1\nwatermark 2024-01-01T11:54:00Z\npart 0 0 2\npart 0 1 1\nend\n",
    ),
    (
        Name::Plan(2),
        b"v1\nplan 2\nwatermark 2024-01-01T12:06:00Z\npart 0 0 3\npart 0 1 1\nend\n",
    ),
    (
        Name::Commit(0),
        b"v1\ncommit 0\nseen 0 2024-01-01T12:04:00Z\nend\n",
    ),
    (
        Name::Commit(1),
        b"v1\ncommit 1\nseen 0 2024-01-01T12:16:00Z\nend\n",
    ),
    (
        Name::Commit(2),
        b"v1\ncommit 2\nseen 0 2024-01-01T12:16:00Z\nend\n",
    ),
    (Name::Out(0), b""),
    (Name::Out(1), b""),
    (
        Name::Out(2),
        b"{\"window_start\":\"2024-01-01T12:00:00Z\",\"n\":2}\n",
    ),
    (
        Name::Delta(0, 0),
        b"SSQDELT1\0\0\0\0\0\0\0\0\0\0\0\0\0\0\0\x01\x01\0\0\0\x09\x03\x80\x06\x0d\xe1\x1f\x0c\xd0\0\0\0\0\x08\0\0\0\0\0\0\0\x02",
    ),
    (
        Name::Delta(0, 1),
        b"SSQDELT1\0\0\0\0\0\0\0\x01\0\0\0\0\0\0\0\x01\x01\0\0\0\x09\x03\x80\x06\x0d\xe1T\xb1\xb9\0\0\0\0\x08\0\0\0\0\0\0\0\x01",
    ),
    (
        Name::Delta(0, 2),
        b"SSQDELT1\0\0\0\0\0\0\0\x02\0\0\0\0\0\0\0\x01\0\0\0\0\x09\x03\x80\x06\x0d\xe1\x1f\x0c\xd0\0",
    ),
];

/// The window at 12:00 is closed by an epoch without lines.
const CLOSED_FILES: Files = &[
    (
        Name::Meta,
        b"v1\npartitions 1\nparts 0 1\nquery 166\nCREATE STREAM s (ts TIMESTAMP) FROM 's' WATERMARK FOR ts DELAY '10 minutes'; SELECT window_start, COUNT(*) AS n FROM s GROUP BY WINDOW(ts, '5 minutes') OUTPUT APPEND;\nend\n",
    ),
    (
        Name::Plan(0),
        b"v1\nplan 0\nwatermark none\npart 0 0 1\nend\n",
    ),
    (
        Name::Plan(1),
        b"v1\nplan 1\nwatermark 2024-01-01T11:53:00Z\npart 0 0 2\nend\n",
    ),
    (
        Name::Plan(2),
        b"v1\nplan 2\nwatermark 2024-01-01T12:06:00Z\npart 0 0 2\nend\n",
    ),
    (
        Name::Commit(0),
        b"v1\ncommit 0\nseen 0 2024-01-01T12:03:00Z\nend\n",
    ),
    (
        Name::Commit(1),
        b"v1\ncommit 1\nseen 0 2024-01-01T12:16:00Z\nend\n",
    ),
    (
        Name::Commit(2),
        b"v1\ncommit 2\nseen 0 2024-01-01T12:16:00Z\nend\n",
    ),
    (Name::Out(0), b""),
    (Name::Out(1), b""),
    (
        Name::Out(2),
        b"{\"window_start\":\"2024-01-01T12:00:00Z\",\"n\":1}\n",
    ),
    (
        Name::Delta(0, 0),
        b"SSQDELT1\0\0\0\0\0\0\0\0\0\0\0\0\0\0\0\x01\x01\0\0\0\x09\x03\x80\x06\x0d\xe1\x1f\x0c\xd0\0\0\0\0\x08\0\0\0\0\0\0\0\x01",
    ),
    (
        Name::Delta(0, 1),
        b"SSQDELT1\0\0\0\0\0\0\0\x01\0\0\0\0\0\0\0\x01\x01\0\0\0\x09\x03\x80\x06\x0d\xe1T\xb1\xb9\0\0\0\0\x08\0\0\0\0\0\0\0\x01",
    ),
    (
        Name::Delta(0, 2),
        b"SSQDELT1\0\0\0\0\0\0\0\x02\0\0\0\0\0\0\0\x01\0\0\0\0\x09\x03\x80\x06\x0d\xe1\x1f\x0c\xd0\0",
    ),
];

pub(crate) const SUMMED: &[u8] =
    b"CREATE STREAM s (k STRING, v BIGINT) FROM 's'; SELECT k, SUM(v) AS t FROM s WHERE v > 0 GROUP BY k OUTPUT UPDATE;";

/// A row that WHERE drops changes nothing, and the delta of its epoch is empty.
pub(crate) const SUMMED_FILES: Files = &[
    (
        Name::Meta,
        b"v1\npartitions 1\nparts 0 1\nquery 113\nCREATE STREAM s (k STRING, v BIGINT) FROM 's'; SELECT k, SUM(v) AS t FROM s WHERE v > 0 GROUP BY k OUTPUT UPDATE;\nend\n",
    ),
    (
        Name::Plan(0),
        b"v1\nplan 0\nwatermark none\npart 0 0 1\nend\n",
    ),
    (
        Name::Plan(1),
        b"v1\nplan 1\nwatermark none\npart 0 0 2\nend\n",
    ),
    (
        Name::Plan(2),
        b"v1\nplan 2\nwatermark none\npart 0 0 3\nend\n",
    ),
    (Name::Commit(0), b"v1\ncommit 0\nend\n"),
    (Name::Commit(1), b"v1\ncommit 1\nend\n"),
    (Name::Commit(2), b"v1\ncommit 2\nend\n"),
    (Name::Out(0), b"{\"k\":\"a\",\"t\":2}\n"),
    (Name::Out(1), b""),
    (Name::Out(2), b"{\"k\":\"a\",\"t\":5}\n"),
    (
        Name::Delta(0, 0),
        b"SSQDELT1\0\0\0\0\0\0\0\0\0\0\0\0\0\0\0\x01\x01\0\0\0\x06\x04\0\0\0\x01a\0\0\0\x18\0\0\0\0\0\0\0\x01\0\0\0\0\0\0\0\0\0\0\0\0\0\0\0\x02",
    ),
    (
        Name::Delta(0, 1),
        b"SSQDELT1\0\0\0\0\0\0\0\x01\0\0\0\0\0\0\0\0",
    ),
    (
        Name::Delta(0, 2),
        b"SSQDELT1\0\0\0\0\0\0\0\x02\0\0\0\0\0\0\0\x01\x01\0\0\0\x06\x04\0\0\0\x01a\0\0\0\x18\0\0\0\0\0\0\0\x02\0\0\0\0\0\0\0\0\0\0\0\0\0\0\0\x05",
    ),
];

const ALL_SUMMED: &[u8] =
    b"CREATE STREAM s (k STRING, v BIGINT) FROM 's'; SELECT k, SUM(v) AS t FROM s GROUP BY k OUTPUT UPDATE;";

const TOO_GREAT: &[&[u8]] = &[
    b"{\"k\":\"a\",\"v\":9223372036854775807}\n{\"k\":\"a\",\"v\":1}\n{\"k\":\"a\",\"v\":-5}\n",
];

/// The epoch that overflows is planned, and brings nothing.
const TOO_GREAT_FILES: Files = &[
    (
        Name::Meta,
        b"v1\npartitions 1\nparts 0 1\nquery 101\nCREATE STREAM s (k STRING, v BIGINT) FROM 's'; SELECT k, SUM(v) AS t FROM s GROUP BY k OUTPUT UPDATE;\nend\n",
    ),
    (
        Name::Plan(0),
        b"v1\nplan 0\nwatermark none\npart 0 0 1\nend\n",
    ),
    (
        Name::Plan(1),
        b"v1\nplan 1\nwatermark none\npart 0 0 2\nend\n",
    ),
    (Name::Commit(0), b"v1\ncommit 0\nend\n"),
    (Name::Out(0), b"{\"k\":\"a\",\"t\":9223372036854775807}\n"),
    (
        Name::Delta(0, 0),
        b"SSQDELT1\0\0\0\0\0\0\0\0\0\0\0\0\0\0\0\x01\x01\0\0\0\x06\x04\0\0\0\x01a\0\0\0\x18\0\0\0\0\0\0\0\x01\0\0\0\0\0\0\0\0\x7f\xff\xff\xff\xff\xff\xff\xff",
    ),
];

const KEYS: &[&[u8]] = &[b"{\"k\":\"b\"}\n{}\n{\"k\":\"a\"}\n{\"k\":null}\n{\"k\":\"b\"}\n"];

const KEYS_TOLD: &[u8] = b"epoch 0 lines 5 watermark none rows 3\ndone epochs 1\n";

/// All lines are covered, and the watermark has risen: an epoch without lines closes the window.
pub(crate) static CLOSED: Row = Row {
    words: BY_ONE,
    query: QA,
    before: &[],
    parts: TWO_TIMES,
    out: CLOSED_TOLD,
    status: 0,
    after: CLOSED_FILES,
};

pub(crate) static WHOLE: [Row; 7] = [
    // The second part's only line is in epoch 0. 12:02 is late in epoch 2, which closes its window at 12:05.
    Row {
        words: BY_ONE,
        query: QA,
        before: &[],
        parts: LATE,
        out: LATE_TOLD,
        status: 0,
        after: LATE_FILES,
    },
    Row {
        words: STATUS,
        query: QA,
        before: LATE_FILES,
        parts: &[],
        out: b"partitions 1\nplanned 3\ncommitted 3\nwatermark 2024-01-01T12:06:00Z\npart 0 0 3\npart 0 1 1\n",
        status: 0,
        after: LATE_FILES,
    },
    // It has nothing to do a second time.
    Row {
        words: BY_ONE,
        query: QA,
        before: CLOSED_FILES,
        parts: TWO_TIMES,
        out: b"done epochs 3\n",
        status: 0,
        after: CLOSED_FILES,
    },
    Row {
        words: BY_ONE,
        query: SUMMED,
        before: &[],
        parts: &[b"{\"k\":\"a\",\"v\":2}\n{\"k\":\"a\",\"v\":0}\n{\"k\":\"a\",\"v\":3}\n"],
        out: b"epoch 0 lines 1 watermark none rows 1\nepoch 1 lines 1 watermark none rows 0\nepoch 2 lines 1 watermark none rows 1\ndone epochs 3\n",
        status: 0,
        after: SUMMED_FILES,
    },
    // A sum that is shown has to fit, though it would fit again one line later.
    Row {
        words: BY_ONE,
        query: ALL_SUMMED,
        before: &[],
        parts: TOO_GREAT,
        out: b"epoch 0 lines 1 watermark none rows 1\nstopped 5 Overflow key [\"a\"]\n",
        status: 5,
        after: TOO_GREAT_FILES,
    },
    Row {
        words: BY_ONE,
        query: ALL_SUMMED,
        before: TOO_GREAT_FILES,
        parts: TOO_GREAT,
        out: b"stopped 5 Overflow key [\"a\"]\n",
        status: 5,
        after: TOO_GREAT_FILES,
    },
    Row {
        words: STATUS,
        query: ALL_SUMMED,
        before: TOO_GREAT_FILES,
        parts: &[],
        out: b"partitions 1\nplanned 2\ncommitted 1\nwatermark none\npart 0 0 2\n",
        status: 0,
        after: TOO_GREAT_FILES,
    },
];

/// The groups that runs show.
pub(crate) fn shown_runs() -> &'static [Shown; 11] {
    &SHOWN
}

static SHOWN: [Shown; 11] = [
    // The partitions change no sink file.
    Shown {
        words: IN_THREE,
        query: QA,
        before: &[],
        parts: LATE,
        out: LATE_TOLD,
        files: &[
            (Name::Out(0), b""),
            (Name::Out(1), b""),
            (Name::Out(2), WINDOW_AT_TWELVE),
        ],
    },
    // At its end a window is closed, and a row of it is late.
    Shown {
        words: BY_ONE,
        query: QA,
        before: &[],
        parts: &[
            b"{\"ts\":\"2024-01-01T12:03:00Z\"}\n{\"ts\":\"2024-01-01T12:15:00Z\"}\n{\"ts\":\"2024-01-01T12:02:00Z\"}\n",
            b"{\"ts\":\"2024-01-01T12:04:00Z\"}\n",
        ],
        out: b"epoch 0 lines 2 watermark none rows 0\nepoch 1 lines 1 watermark 2024-01-01T11:54:00Z rows 0\nepoch 2 lines 1 watermark 2024-01-01T12:05:00Z rows 1\ndone epochs 3\n",
        files: &[
            (Name::Out(0), b""),
            (Name::Out(1), b""),
            (Name::Out(2), WINDOW_AT_TWELVE),
        ],
    },
    // A second round goes on from what the first one kept, and finds nothing to do.
    Shown {
        words: TWICE_BY_ONE,
        query: QA,
        before: &[],
        parts: TWO_TIMES,
        out: CLOSED_TOLD,
        files: &[
            (Name::Out(0), b""),
            (Name::Out(1), b""),
            (Name::Out(2), ONE_AT_TWELVE),
        ],
    },
    // A further run goes on from the files of the state: 12:04 is late, and the windows of 12:12 and 12:16 are closed.
    Shown {
        words: BY_THREE,
        query: QA,
        before: CLOSED_FILES,
        parts: &[
            b"{\"ts\":\"2024-01-01T12:03:00Z\"}\n{\"ts\":\"2024-01-01T12:16:00Z\"}\n{\"ts\":\"2024-01-01T12:04:00Z\"}\n{\"ts\":\"2024-01-01T12:12:00Z\"}\n{\"ts\":\"2024-01-01T12:30:00Z\"}\n",
        ],
        out: b"epoch 3 lines 3 watermark 2024-01-01T12:06:00Z rows 0\nepoch 4 lines 0 watermark 2024-01-01T12:20:00Z rows 2\ndone epochs 5\n",
        files: &[
            (Name::Out(0), b""),
            (Name::Out(1), b""),
            (Name::Out(2), ONE_AT_TWELVE),
            (Name::Out(3), b""),
            (
                Name::Out(4),
                b"{\"window_start\":\"2024-01-01T12:10:00Z\",\"n\":1}\n{\"window_start\":\"2024-01-01T12:15:00Z\",\"n\":1}\n",
            ),
        ],
    },
    // 12:07 is late for the window that ends at 12:10, and not for the one that ends at 12:15.
    Shown {
        words: BY_ONE,
        query: b"CREATE STREAM s (ts TIMESTAMP) FROM 's' WATERMARK FOR ts DELAY '10 minutes'; SELECT window_start, COUNT(*) AS n FROM s GROUP BY WINDOW(ts, '10 minutes', '5 minutes') OUTPUT APPEND;",
        before: &[],
        parts: &[
            b"{\"ts\":\"2024-01-01T12:22:00Z\"}\n{\"ts\":\"2024-01-01T12:07:00Z\"}\n{\"ts\":\"2024-01-01T12:30:00Z\"}\n",
        ],
        out: b"epoch 0 lines 1 watermark none rows 0\nepoch 1 lines 1 watermark 2024-01-01T12:12:00Z rows 0\nepoch 2 lines 1 watermark 2024-01-01T12:12:00Z rows 0\nepoch 3 lines 0 watermark 2024-01-01T12:20:00Z rows 1\ndone epochs 4\n",
        files: &[
            (Name::Out(0), b""),
            (Name::Out(1), b""),
            (Name::Out(2), b""),
            (
                Name::Out(3),
                b"{\"window_start\":\"2024-01-01T12:05:00Z\",\"n\":1}\n",
            ),
        ],
    },
    // NULLs are one group, whether they stand there or not.
    Shown {
        words: RUN,
        query: ORDERED,
        before: &[],
        parts: KEYS,
        out: KEYS_TOLD,
        files: &[(
            Name::Out(0),
            b"{\"k\":null,\"n\":2}\n{\"k\":\"b\",\"n\":2}\n{\"k\":\"a\",\"n\":1}\n",
        )],
    },
    Shown {
        words: RUN,
        query: b"CREATE STREAM s (k STRING) FROM 's'; SELECT k, COUNT(*) AS n FROM s GROUP BY k ORDER BY k DESC OUTPUT COMPLETE;",
        before: &[],
        parts: KEYS,
        out: KEYS_TOLD,
        files: &[(
            Name::Out(0),
            b"{\"k\":\"b\",\"n\":2}\n{\"k\":\"a\",\"n\":1}\n{\"k\":null,\"n\":2}\n",
        )],
    },
    // In Append a sum has to fit in the epoch that closes it alone.
    Shown {
        words: BY_ONE,
        query: b"CREATE STREAM s (ts TIMESTAMP, v BIGINT) FROM 's' WATERMARK FOR ts DELAY '10 minutes'; SELECT window_start, SUM(v) AS t FROM s GROUP BY WINDOW(ts, '5 minutes') OUTPUT APPEND;",
        before: &[],
        parts: &[
            b"{\"ts\":\"2024-01-01T12:01:00Z\",\"v\":9223372036854775807}\n{\"ts\":\"2024-01-01T12:02:00Z\",\"v\":1}\n{\"ts\":\"2024-01-01T12:03:00Z\",\"v\":-5}\n{\"ts\":\"2024-01-01T12:20:00Z\",\"v\":0}\n",
        ],
        out: b"epoch 0 lines 1 watermark none rows 0\nepoch 1 lines 1 watermark 2024-01-01T11:51:00Z rows 0\nepoch 2 lines 1 watermark 2024-01-01T11:52:00Z rows 0\nepoch 3 lines 1 watermark 2024-01-01T11:53:00Z rows 0\nepoch 4 lines 0 watermark 2024-01-01T12:10:00Z rows 1\ndone epochs 5\n",
        files: &[
            (Name::Out(0), b""),
            (Name::Out(1), b""),
            (Name::Out(2), b""),
            (Name::Out(3), b""),
            (
                Name::Out(4),
                b"{\"window_start\":\"2024-01-01T12:00:00Z\",\"t\":9223372036854775803}\n",
            ),
        ],
    },
    // The least and the greatest of NULLs alone are NULL. A row that changes nothing shows its key again.
    Shown {
        words: BY_TWO,
        query: b"CREATE STREAM s (k STRING, v BIGINT) FROM 's'; SELECT k, MIN(v) AS lo, MAX(v) AS hi, COUNT(v) AS n FROM s GROUP BY k OUTPUT UPDATE;",
        before: &[],
        parts: &[
            b"{\"k\":\"a\"}\n{\"k\":\"b\",\"v\":7}\n{\"k\":\"a\",\"v\":null}\n{\"k\":\"b\",\"v\":-2}\n{\"k\":\"a\",\"v\":3}\n{\"k\":\"b\"}\n",
        ],
        out: b"epoch 0 lines 2 watermark none rows 2\nepoch 1 lines 2 watermark none rows 2\nepoch 2 lines 2 watermark none rows 2\ndone epochs 3\n",
        files: &[
            (
                Name::Out(0),
                b"{\"k\":\"a\",\"lo\":null,\"hi\":null,\"n\":0}\n{\"k\":\"b\",\"lo\":7,\"hi\":7,\"n\":1}\n",
            ),
            (
                Name::Out(1),
                b"{\"k\":\"a\",\"lo\":null,\"hi\":null,\"n\":0}\n{\"k\":\"b\",\"lo\":-2,\"hi\":7,\"n\":2}\n",
            ),
            (
                Name::Out(2),
                b"{\"k\":\"a\",\"lo\":3,\"hi\":3,\"n\":1}\n{\"k\":\"b\",\"lo\":-2,\"hi\":7,\"n\":2}\n",
            ),
        ],
    },
    // What HAVING hides where it is closed is never shown.
    Shown {
        words: BY_THREE,
        query: b"CREATE STREAM s (ts TIMESTAMP, k STRING) FROM 's' WATERMARK FOR ts DELAY '10 minutes'; SELECT window_start, k, COUNT(*) AS n FROM s GROUP BY WINDOW(ts, '5 minutes'), k HAVING COUNT(*) > 1 OUTPUT APPEND;",
        before: &[],
        parts: &[
            b"{\"ts\":\"2024-01-01T12:01:00Z\",\"k\":\"a\"}\n{\"ts\":\"2024-01-01T12:02:00Z\",\"k\":\"b\"}\n{\"ts\":\"2024-01-01T12:04:00Z\",\"k\":\"a\"}\n{\"ts\":\"2024-01-01T12:20:00Z\",\"k\":\"a\"}\n",
        ],
        out: b"epoch 0 lines 3 watermark none rows 0\nepoch 1 lines 1 watermark 2024-01-01T11:54:00Z rows 0\nepoch 2 lines 0 watermark 2024-01-01T12:10:00Z rows 1\ndone epochs 3\n",
        files: &[
            (Name::Out(0), b""),
            (Name::Out(1), b""),
            (
                Name::Out(2),
                b"{\"window_start\":\"2024-01-01T12:00:00Z\",\"k\":\"a\",\"n\":2}\n",
            ),
        ],
    },
    // In Update an epoch shows the keys that it touches, and no other.
    Shown {
        words: BY_TWO,
        query: SUMMED,
        before: &[],
        parts: &[
            b"{\"k\":\"a\",\"v\":1}\n{\"k\":\"b\",\"v\":2}\n{\"k\":\"b\",\"v\":3}\n{\"k\":\"c\",\"v\":4}\n",
        ],
        out: b"epoch 0 lines 2 watermark none rows 2\nepoch 1 lines 2 watermark none rows 2\ndone epochs 2\n",
        files: &[
            (
                Name::Out(0),
                b"{\"k\":\"a\",\"t\":1}\n{\"k\":\"b\",\"t\":2}\n",
            ),
            (
                Name::Out(1),
                b"{\"k\":\"b\",\"t\":5}\n{\"k\":\"c\",\"t\":4}\n",
            ),
        ],
    },
];
