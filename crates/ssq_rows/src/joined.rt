//! Runs of queries that join two streams, `l` and `r`, with a log of each.
//!
//! All times are of the first day of 2024.

use crate::rows::Files;
use ssq_outside::Name;

/// A run, in epochs of at most one line of each log and with one partition, that is done to its end, and files that come of it.
pub(crate) struct Joined {
    pub(crate) query: &'static [u8],
    pub(crate) left: &'static [u8],
    pub(crate) right: &'static [u8],
    pub(crate) out: &'static [u8],
    pub(crate) files: Files,
}

/// The runs of joins.
pub(crate) fn joined_runs() -> &'static [Joined; 3] {
    &JOINED
}

static JOINED: [Joined; 3] = [
    // A row at the end of the bound meets its partner as it comes. Both are kept then as rows that met one.
    Joined {
        query: b"CREATE STREAM l (id BIGINT, t TIMESTAMP) FROM 'l' WATERMARK FOR t DELAY '10 minutes'; CREATE STREAM r (id BIGINT, t TIMESTAMP) FROM 'r' WATERMARK FOR t DELAY '10 minutes'; SELECT l.id, l.t AS lt, r.t AS rt FROM l JOIN r ON l.id = r.id AND r.t BETWEEN l.t AND l.t + INTERVAL '1 hour' OUTPUT APPEND;",
        left: b"{\"id\":1,\"t\":\"2024-01-01T12:00:00Z\"}\n{\"id\":2,\"t\":\"2024-01-01T12:40:00Z\"}\n{\"id\":3,\"t\":\"2024-01-01T12:45:00Z\"}\n",
        right: b"{\"id\":9,\"t\":\"2024-01-01T12:50:00Z\"}\n{\"id\":9,\"t\":\"2024-01-01T12:55:00Z\"}\n{\"id\":9,\"t\":\"2024-01-01T12:56:00Z\"}\n{\"id\":1,\"t\":\"2024-01-01T13:00:00Z\"}\n",
        out: b"epoch 0 lines 2 watermark none rows 0\nepoch 1 lines 2 watermark 2024-01-01T11:50:00Z rows 0\nepoch 2 lines 2 watermark 2024-01-01T12:30:00Z rows 0\nepoch 3 lines 1 watermark 2024-01-01T12:35:00Z rows 1\ndone epochs 4\n",
        files: &[
            (
                Name::Out(3),
                b"{\"id\":1,\"lt\":\"2024-01-01T12:00:00Z\",\"rt\":\"2024-01-01T13:00:00Z\"}\n",
            ),
            (
                Name::Delta(0, 0),
                b"SSQDELT1\x00\x00\x00\x00\x00\x00\x00\x00\x00\x00\x00\x00\x00\x00\x00\x02\x01\x00\x00\x00\x1a\x00\x02\x80\x00\x00\x00\x00\x00\x00\x01\x00\x00\x00\x00\x00\x00\x00\x00\x00\x00\x00\x00\x00\x00\x00\x00\x00\x00\x00\x13\x02\x80\x00\x00\x00\x00\x00\x00\x01\x03\x80\x06\x0d\xe1\x1f\x0c\xd0\x00\x00\x01\x00\x00\x00\x1a\x01\x02\x80\x00\x00\x00\x00\x00\x00\x09\x00\x00\x00\x00\x00\x00\x00\x00\x00\x00\x00\x00\x00\x00\x00\x00\x00\x00\x00\x13\x02\x80\x00\x00\x00\x00\x00\x00\x09\x03\x80\x06\x0d\xe1\xd1\xdd.\x00\x00",
            ),
            (
                Name::Delta(0, 3),
                b"SSQDELT1\x00\x00\x00\x00\x00\x00\x00\x03\x00\x00\x00\x00\x00\x00\x00\x02\x01\x00\x00\x00\x1a\x00\x02\x80\x00\x00\x00\x00\x00\x00\x01\x00\x00\x00\x00\x00\x00\x00\x00\x00\x00\x00\x00\x00\x00\x00\x00\x00\x00\x00\x13\x02\x80\x00\x00\x00\x00\x00\x00\x01\x03\x80\x06\x0d\xe1\x1f\x0c\xd0\x00\x01\x01\x00\x00\x00\x1a\x01\x02\x80\x00\x00\x00\x00\x00\x00\x01\x00\x00\x00\x03\x00\x00\x00\x00\x00\x00\x00\x00\x00\x00\x00\x03\x00\x00\x00\x13\x02\x80\x00\x00\x00\x00\x00\x00\x01\x03\x80\x06\x0d\xe1\xf5\xa0t\x00\x01",
            ),
        ],
    },
    // A left row without a partner is shown, and forgotten, in an epoch without lines: its bound is past.
    Joined {
        query: b"CREATE STREAM l (id BIGINT, t TIMESTAMP) FROM 'l' WATERMARK FOR t DELAY '10 minutes'; CREATE STREAM r (id BIGINT, t TIMESTAMP) FROM 'r' WATERMARK FOR t DELAY '10 minutes'; SELECT l.id, r.t AS rt FROM l LEFT JOIN r ON l.id = r.id AND r.t BETWEEN l.t AND l.t + INTERVAL '1 hour' OUTPUT APPEND;",
        left: b"{\"id\":1,\"t\":\"2024-01-01T12:00:00Z\"}\n{\"id\":2,\"t\":\"2024-01-01T13:30:00Z\"}\n",
        right: b"{\"id\":9,\"t\":\"2024-01-01T13:30:00Z\"}\n",
        out: b"epoch 0 lines 2 watermark none rows 0\nepoch 1 lines 1 watermark 2024-01-01T11:50:00Z rows 0\nepoch 2 lines 0 watermark 2024-01-01T13:20:00Z rows 1\ndone epochs 3\n",
        files: &[
            (Name::Out(0), b""),
            (Name::Out(1), b""),
            (Name::Out(2), b"{\"id\":1,\"rt\":null}\n"),
            (
                Name::Delta(0, 2),
                b"SSQDELT1\x00\x00\x00\x00\x00\x00\x00\x02\x00\x00\x00\x00\x00\x00\x00\x01\x00\x00\x00\x00\x1a\x00\x02\x80\x00\x00\x00\x00\x00\x00\x01\x00\x00\x00\x00\x00\x00\x00\x00\x00\x00\x00\x00\x00\x00\x00\x00",
            ),
        ],
    },
    // So is a right row, whose last partner has its own time, and the left row with it is forgotten unshown.
    Joined {
        query: b"CREATE STREAM l (id BIGINT, t TIMESTAMP) FROM 'l' WATERMARK FOR t DELAY '10 minutes'; CREATE STREAM r (id BIGINT, t TIMESTAMP) FROM 'r' WATERMARK FOR t DELAY '10 minutes'; SELECT l.id, r.t AS rt FROM l RIGHT JOIN r ON l.id = r.id AND r.t BETWEEN l.t AND l.t + INTERVAL '1 hour' OUTPUT APPEND;",
        left: b"{\"id\":9,\"t\":\"2024-01-01T12:00:00Z\"}\n{\"id\":9,\"t\":\"2024-01-01T13:30:00Z\"}\n",
        right: b"{\"id\":1,\"t\":\"2024-01-01T12:00:00Z\"}\n{\"id\":2,\"t\":\"2024-01-01T13:30:00Z\"}\n",
        out: b"epoch 0 lines 2 watermark none rows 0\nepoch 1 lines 2 watermark 2024-01-01T11:50:00Z rows 0\nepoch 2 lines 0 watermark 2024-01-01T13:20:00Z rows 1\ndone epochs 3\n",
        files: &[
            (Name::Out(0), b""),
            (Name::Out(1), b""),
            (
                Name::Out(2),
                b"{\"id\":null,\"rt\":\"2024-01-01T12:00:00Z\"}\n",
            ),
            (
                Name::Delta(0, 2),
                b"SSQDELT1\x00\x00\x00\x00\x00\x00\x00\x02\x00\x00\x00\x00\x00\x00\x00\x02\x00\x00\x00\x00\x1a\x00\x02\x80\x00\x00\x00\x00\x00\x00\x09\x00\x00\x00\x00\x00\x00\x00\x00\x00\x00\x00\x00\x00\x00\x00\x00\x00\x00\x00\x00\x1a\x01\x02\x80\x00\x00\x00\x00\x00\x00\x01\x00\x00\x00\x00\x00\x00\x00\x00\x00\x00\x00\x00\x00\x00\x00\x00",
            ),
        ],
    },
];

/// What the first of these leaves with any number of partitions: its plans, commits and rows.
pub(crate) const IN_ANY: Files = &[
    (
        Name::Plan(0),
        b"v1\nplan 0\nwatermark none\npart 0 0 1\npart 1 0 1\nend\n",
    ),
    (
        Name::Commit(0),
        b"v1\ncommit 0\nseen 0 2024-01-01T12:00:00Z\nseen 1 2024-01-01T12:50:00Z\nend\n",
    ),
    (Name::Out(0), b""),
    (
        Name::Plan(1),
        b"v1\nplan 1\nwatermark 2024-01-01T11:50:00Z\npart 0 0 2\npart 1 0 2\nend\n",
    ),
    (
        Name::Commit(1),
        b"v1\ncommit 1\nseen 0 2024-01-01T12:40:00Z\nseen 1 2024-01-01T12:55:00Z\nend\n",
    ),
    (Name::Out(1), b""),
    (
        Name::Plan(2),
        b"v1\nplan 2\nwatermark 2024-01-01T12:30:00Z\npart 0 0 3\npart 1 0 3\nend\n",
    ),
    (
        Name::Commit(2),
        b"v1\ncommit 2\nseen 0 2024-01-01T12:45:00Z\nseen 1 2024-01-01T12:56:00Z\nend\n",
    ),
    (Name::Out(2), b""),
    (
        Name::Plan(3),
        b"v1\nplan 3\nwatermark 2024-01-01T12:35:00Z\npart 0 0 3\npart 1 0 4\nend\n",
    ),
    (
        Name::Commit(3),
        b"v1\ncommit 3\nseen 0 2024-01-01T12:45:00Z\nseen 1 2024-01-01T13:00:00Z\nend\n",
    ),
    (
        Name::Out(3),
        b"{\"id\":1,\"lt\":\"2024-01-01T12:00:00Z\",\"rt\":\"2024-01-01T13:00:00Z\"}\n",
    ),
];
