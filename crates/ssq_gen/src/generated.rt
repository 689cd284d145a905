//! Generated inputs.

ghost use Rattle.std.specs.Prelude.{◌≡◌, ◌≤◌, [], IfOk};
ghost use Rattle.ssq_fakes.specs.Inputs.{inputs_held, inputs_returned, input_faults};
ghost use Rattle.ssq_gen.specs.Made.{made_held};

use crate::lines::two_parts;
use ssq_fakes::{MemInputs, MemLog};
use ssq_outside::Inputs;
use std::alloc::{AllocError, Global};

/// The name of the query's file.
pub const QUERY_NAME: &str = "gen.sql";

/// The source of the query's stream.
const SOURCE: &str = "g";

/// By minutes and keys, how many lines and the sum of their values, in Append.
pub const QUERY: &str =
    "CREATE STREAM g (ts TIMESTAMP, k STRING, v BIGINT) FROM 'g' WATERMARK FOR ts DELAY '20 seconds'; SELECT window_start, k, COUNT(*) AS n, SUM(v) AS t FROM g GROUP BY WINDOW(ts, '1 minute'), k OUTPUT APPEND;";

/// The inputs of so many lines, where line 0 has this number: the query's file and both parts of its stream. They never fail.
pub fn made(alloc: Global, number: u32, lines: u32) -> Result<MemInputs, AllocError>
    requires number { number ≤ 65536 }
    requires lines { lines ≤ 10000000 }
    ensures held { IfOk result (λ inputs. inputs_held inputs ≡ made_held number lines) }
    ensures unreturned { IfOk result (λ inputs. inputs_returned inputs ≡ []) }
    ensures count { IfOk result (λ inputs. input_faults inputs ≡ 0) }
    ensures sure { IfOk result (λ inputs. ⟦<MemInputs as Inputs>⟧.sure inputs) }
{
    let parts = two_parts(alloc, number, lines)?;
    let (even, odd) = parts;
    let first = MemLog::of(alloc, even)?;
    let second = MemLog::of(alloc, odd)?;
    let empty = MemInputs::new(alloc);
    let queried = empty.with_text(alloc, QUERY_NAME, QUERY.as_bytes())?;
    let half = queried.with_part(alloc, SOURCE, first)?;
    let whole = half.with_part(alloc, SOURCE, second)?;
    Ok(whole)
}
