//! Rows in memory of their own.

ghost use Rattle.std.specs.Prelude.{◌≡◌, IfOk};

use ssq_value::{Row, Value};
use std::alloc::{AllocError, Global};

/// A row of copies of these values.
pub fn copied_row(alloc: Global, values: &[Value]) -> Result<Row, AllocError>
    ensures { IfOk result (λ row. row ≡ values.now) }
{
    Ok(Row::from_vec(values.to_vec(alloc)?))
}
