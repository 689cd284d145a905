//! Checkpoints and the tables that `show` makes of their sink files.

use crate::grouped::{SUMMED, SUMMED_FILES};
use crate::rows::{
    COMMIT_0, COMMIT_1, DONE, FILTER, Files, HALF, META, OUT_0, OUT_1, PLAN_0, PLAN_1, Row,
};
use ssq_outside::Name;

const SHOW: &[&str] = &["ssq", "show", "q.sql"];

/// Both epochs' rows, one epoch after the other.
const BOTH: &[u8] = b"{\"id\":1,\"w\":12}\n{\"id\":3,\"w\":21}\n";

const DAMAGED_0: &[u8] = b"stopped 9 Damaged sink/0\n";

/// Rows of one file that are not in the order of a sink file.
const UNSORTED: &[u8] =
    b"{\"id\":3,\"w\":21}\n{\"id\":1,\"w\":12}\n{\"id\":null,\"w\":-9223372036854775808}\n";

pub(crate) static TABLES: [Row; 6] = [
    Row {
        words: SHOW,
        query: FILTER,
        before: DONE,
        parts: &[],
        out: BOTH,
        status: 0,
        after: DONE,
    },
    // Nothing is there, or the record alone.
    Row {
        words: SHOW,
        query: FILTER,
        before: &[],
        parts: &[],
        out: b"",
        status: 0,
        after: &[],
    },
    Row {
        words: SHOW,
        query: FILTER,
        before: &[META],
        parts: &[],
        out: b"",
        status: 0,
        after: &[META],
    },
    // All sink files count, also one whose epoch is not committed.
    Row {
        words: SHOW,
        query: FILTER,
        before: HALF,
        parts: &[],
        out: BOTH,
        status: 0,
        after: HALF,
    },
    // The rows need not be sorted.
    Row {
        words: SHOW,
        query: FILTER,
        before: &[META, (Name::Out(0), UNSORTED)],
        parts: &[],
        out: UNSORTED,
        status: 0,
        after: &[META, (Name::Out(0), UNSORTED)],
    },
    // Of groups in Update the last row of each key.
    Row {
        words: SHOW,
        query: SUMMED,
        before: SUMMED_FILES,
        parts: &[],
        out: b"{\"k\":\"a\",\"t\":5}\n",
        status: 0,
        after: SUMMED_FILES,
    },
];

/// The first sink file is bad, and nothing else is told.
pub(crate) static BAD: [Row; 10] = [
    // It is missing below another.
    Row {
        words: SHOW,
        query: FILTER,
        before: &[META, PLAN_0, PLAN_1, COMMIT_0, COMMIT_1, OUT_1],
        parts: &[],
        out: DAMAGED_0,
        status: 9,
        after: &[META, PLAN_0, PLAN_1, COMMIT_0, COMMIT_1, OUT_1],
    },
    // It has a byte too many, a byte too few, or a blank.
    Row {
        words: SHOW,
        query: FILTER,
        before: &[
            META,
            PLAN_0,
            COMMIT_0,
            (Name::Out(0), b"{\"id\":1,\"w\":12}\nx"),
        ],
        parts: &[],
        out: DAMAGED_0,
        status: 9,
        after: &[
            META,
            PLAN_0,
            COMMIT_0,
            (Name::Out(0), b"{\"id\":1,\"w\":12}\nx"),
        ],
    },
    Row {
        words: SHOW,
        query: FILTER,
        before: &[META, (Name::Out(0), b"{\"id\":1,\"w\":12}")],
        parts: &[],
        out: DAMAGED_0,
        status: 9,
        after: &[META, (Name::Out(0), b"{\"id\":1,\"w\":12}")],
    },
    Row {
        words: SHOW,
        query: FILTER,
        before: &[META, (Name::Out(0), b"{\"id\": 1,\"w\":12}\n")],
        parts: &[],
        out: DAMAGED_0,
        status: 9,
        after: &[META, (Name::Out(0), b"{\"id\": 1,\"w\":12}\n")],
    },
    // It has a text for a number, a number that is not written so, or one of more than 64 bits.
    Row {
        words: SHOW,
        query: FILTER,
        before: &[META, (Name::Out(0), b"{\"id\":\"1\",\"w\":12}\n")],
        parts: &[],
        out: DAMAGED_0,
        status: 9,
        after: &[META, (Name::Out(0), b"{\"id\":\"1\",\"w\":12}\n")],
    },
    Row {
        words: SHOW,
        query: FILTER,
        before: &[META, (Name::Out(0), b"{\"id\":01,\"w\":12}\n")],
        parts: &[],
        out: DAMAGED_0,
        status: 9,
        after: &[META, (Name::Out(0), b"{\"id\":01,\"w\":12}\n")],
    },
    Row {
        words: SHOW,
        query: FILTER,
        before: &[
            META,
            (Name::Out(0), b"{\"id\":9223372036854775808,\"w\":12}\n"),
        ],
        parts: &[],
        out: DAMAGED_0,
        status: 9,
        after: &[
            META,
            (Name::Out(0), b"{\"id\":9223372036854775808,\"w\":12}\n"),
        ],
    },
    // It has other columns.
    Row {
        words: SHOW,
        query: FILTER,
        before: &[META, (Name::Out(0), b"{\"w\":12,\"id\":1}\n")],
        parts: &[],
        out: DAMAGED_0,
        status: 9,
        after: &[META, (Name::Out(0), b"{\"w\":12,\"id\":1}\n")],
    },
    Row {
        words: SHOW,
        query: FILTER,
        before: &[META, (Name::Out(0), b"{\"id\":1}\n")],
        parts: &[],
        out: DAMAGED_0,
        status: 9,
        after: &[META, (Name::Out(0), b"{\"id\":1}\n")],
    },
    // Of two the first is named, and the rows before it are not shown.
    Row {
        words: SHOW,
        query: FILTER,
        before: &[META, OUT_0, (Name::Out(1), b"\n"), (Name::Out(3), b"")],
        parts: &[],
        out: b"stopped 9 Damaged sink/1\n",
        status: 9,
        after: &[META, OUT_0, (Name::Out(1), b"\n"), (Name::Out(3), b"")],
    },
];
