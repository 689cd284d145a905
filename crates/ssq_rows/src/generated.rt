//! Counts of generated input, by a model of its own of the rows that come to be.

use crate::rows::{DONE, Row};
use crate::tests::{disk_of, ends_so};
use std::test::Fail;

static GENERATED: [Row; 5] = [
    Row {
        words: &["ssq", "gen", "1", "4"],
        query: b"",
        before: &[],
        parts: &[],
        out: b"lines 4 epochs 2 rows 1 count 1 sum 1\n",
        status: 0,
        after: &[],
    },
    // A checkpoint that stands there is not asked.
    Row {
        words: &["ssq", "gen", "1", "11"],
        query: b"",
        before: DONE,
        parts: &[],
        out: b"lines 11 epochs 2 rows 5 count 7 sum 1850\n",
        status: 0,
        after: DONE,
    },
    // One line's minute is not over.
    Row {
        words: &["ssq", "gen", "1", "1"],
        query: b"",
        before: &[],
        parts: &[],
        out: b"lines 1 epochs 2 rows 0 count 0 sum 0\n",
        status: 0,
        after: &[],
    },
    // An epoch has 1000 lines of each part.
    Row {
        words: &["ssq", "gen", "7", "3000"],
        query: b"",
        before: &[],
        parts: &[],
        out: b"lines 3000 epochs 3 rows 2176 count 2996 sum 1473755\n",
        status: 0,
        after: &[],
    },
    Row {
        words: &["ssq", "gen", "65536", "2500"],
        query: b"",
        before: &[],
        parts: &[],
        out: b"lines 2500 epochs 3 rows 416 count 2492 sum 1335712\n",
        status: 0,
        after: &[],
    },
];

#[test]
fn generated_input_is_counted(rt: HostRuntime) -> Result<(), Fail> {
    let alloc = rt.alloc();
    for row in &GENERATED {
        let disk = disk_of(alloc, row.before).expect(&rt, "memory");
        assert!(rt; ends_so(&rt, alloc, row, disk)?);
    }
    Ok(())
}
