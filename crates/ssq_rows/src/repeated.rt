//! A run of a query that deduplicates.
//!
//! All times are of the first day of 2024.

use crate::grouped::Shown;
use crate::rows::BY_ONE;
use ssq_outside::Name;

/// Two parts: a key whose rows come twice in an epoch, again in the next, and once more when it is late.
pub(crate) const REPEATED: Shown = Shown {
    words: BY_ONE,
    query: b"CREATE STREAM s (id BIGINT, ts TIMESTAMP, src STRING) FROM 's' WATERMARK FOR ts DELAY '10 minutes'; SELECT id, src FROM s DEDUPLICATE BY id, ts OUTPUT APPEND;",
    before: &[],
    parts: &[
        b"{\"id\":1,\"ts\":\"2024-01-01T12:00:00Z\",\"src\":\"a\"}\n{\"id\":1,\"ts\":\"2024-01-01T12:00:00Z\",\"src\":\"c\"}\n{\"id\":2,\"ts\":\"2024-01-01T12:20:00Z\",\"src\":\"d\"}\n{\"id\":1,\"ts\":\"2024-01-01T12:00:00Z\",\"src\":\"f\"}\n",
        b"{\"id\":1,\"ts\":\"2024-01-01T12:00:00Z\",\"src\":\"b\"}\n",
    ],
    out: b"epoch 0 lines 2 watermark none rows 1\nepoch 1 lines 1 watermark 2024-01-01T11:50:00Z rows 0\nepoch 2 lines 1 watermark 2024-01-01T11:50:00Z rows 1\nepoch 3 lines 1 watermark 2024-01-01T12:10:00Z rows 0\ndone epochs 4\n",
    // The key of the first rows is forgotten in the last epoch.
    files: &[
        (Name::Out(0), b"{\"id\":1,\"src\":\"a\"}\n"),
        (Name::Out(1), b""),
        (Name::Out(2), b"{\"id\":2,\"src\":\"d\"}\n"),
        (Name::Out(3), b""),
        (
            Name::Delta(0, 0),
            b"SSQDELT1\x00\x00\x00\x00\x00\x00\x00\x00\x00\x00\x00\x00\x00\x00\x00\x01\x01\x00\x00\x00\x12\x02\x80\x00\x00\x00\x00\x00\x00\x01\x03\x80\x06\x0d\xe1\x1f\x0c\xd0\x00\x00\x00\x00\x00",
        ),
        (
            Name::Delta(0, 1),
            b"SSQDELT1\x00\x00\x00\x00\x00\x00\x00\x01\x00\x00\x00\x00\x00\x00\x00\x00",
        ),
        (
            Name::Delta(0, 2),
            b"SSQDELT1\x00\x00\x00\x00\x00\x00\x00\x02\x00\x00\x00\x00\x00\x00\x00\x01\x01\x00\x00\x00\x12\x02\x80\x00\x00\x00\x00\x00\x00\x02\x03\x80\x06\x0d\xe1f\x93\x5c\x00\x00\x00\x00\x00",
        ),
        (
            Name::Delta(0, 3),
            b"SSQDELT1\x00\x00\x00\x00\x00\x00\x00\x03\x00\x00\x00\x00\x00\x00\x00\x01\x00\x00\x00\x00\x12\x02\x80\x00\x00\x00\x00\x00\x00\x01\x03\x80\x06\x0d\xe1\x1f\x0c\xd0\x00",
        ),
    ],
};
