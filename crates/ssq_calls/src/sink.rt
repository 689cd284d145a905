//! Worked rows and the texts of their sink files.

ghost use Rattle.std.specs.Prelude.{IfOk};
ghost use Rattle.std.specs.List.{All};
ghost use Rattle.ssq_time.specs.Time.{IsStampTime};
ghost use Rattle.ssq_value.specs.Kind.{IfTime};

use crate::bound::bound_of;
use ssq_json::read_row;
use ssq_sink::epoch_text;
use ssq_value::{Row, Schema};
use std::alloc::Global;
use std::test::Fail;

/// The rows of the lines, of each line that is a row.
#[tactic(auto, using(crate::proofs::Printed::rows_more))]
fn read_rows(alloc: Global, schema: &Schema, lines: &[&str]) -> Result<Vec<Row>, Fail>
    ensures { IfOk result (λ rows. All (All (IfTime IsStampTime)) rows.items) }
{
    let mut rows = Vec::new(alloc);
    for line in lines {
        if let Ok(Some(row)) = read_row(alloc, line.as_bytes(), schema) {
            rows.push(row)?;
        }
    }
    Ok(rows)
}

#[test]
fn rows_are_sorted_and_written(rt: HostRuntime) -> Result<(), Fail> {
    let alloc = rt.alloc();
    let bound = bound_of(
        alloc,
        b"CREATE STREAM s (id BIGINT, s STRING) FROM 's'; SELECT id, s FROM s OUTPUT APPEND;",
    )?;
    let [stream] = bound.streams.as_slice() else {
        return Err(Fail::from("one stream"));
    };
    let first = r#"{"id":2,"s":"b\"c"}"#;
    let second = r#"{"id":2,"s":null}"#;
    let third = r#"{"id":null,"s":"z"}"#;
    let fourth = r#"{"id":-1,"s":"a"}"#;
    let sorted =
        "{\"id\":null,\"s\":\"z\"}\n{\"id\":-1,\"s\":\"a\"}\n{\"id\":2,\"s\":null}\n{\"id\":2,\"s\":\"b\\\"c\"}\n";
    for (lines, wanted) in [
        ([first, second, third, fourth].as_slice(), sorted),
        ([third, fourth, second, first].as_slice(), sorted),
        (
            [second, second].as_slice(),
            "{\"id\":2,\"s\":null}\n{\"id\":2,\"s\":null}\n",
        ),
        ([].as_slice(), ""),
    ] {
        let rows = read_rows(alloc, &stream.schema, lines)?;
        let text = epoch_text(alloc, &bound, rows)?;
        assert_eq!(rt; text.as_str(), wanted, "{lines:?}");
    }
    Ok(())
}
