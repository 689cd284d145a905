//! The last row of each key.

ghost use Rattle.std.specs.Prelude.{◌≡◌, ◌++◌, ◌∷◌, [], List, is_some, if◌then◌else◌, IfOk, OnOk};
ghost use Rattle.std.specs.List.{All};
ghost use Rattle.ssq_time.specs.Time.{IsStampTime};
ghost use Rattle.ssq_value.specs.Kind.{IfTime};
ghost use Rattle.ssq_shape.specs.declared.bound.Output.{Output as OutputOf};
ghost use Rattle.ssq_meaning.specs.Meaning.{Values};
ghost use Rattle.ssq_meaning.specs.Table.{key_cells};
ghost use Rattle.ssq_sink.specs.Latest.{IsLatest};
ghost use Rattle.ssq_sink.specs.Sink.{sink_text};
ghost use Rattle.ssq_sink.specs.Table.{last_rows};

use crate::epoch::epoch_text;
use ssq_shape::{Bound, Output};
use ssq_value::{Row, Text, Value};
use std::alloc::{AllocError, Global};
use std::collections::BTreeMap;

/// Adds the value of a column that is a key by itself.
fn put_cell(cells: &mut Vec<Value>, output: &Output, value: &Value) -> Result<(), AllocError>
    ensures { OnOk result (cells.new.items ≡ cells.old.items ++ (if is_some output.now.key then value.now ∷ [] else [])) }
{
    if output.key.is_some() {
        cells.push(value.clone()?)?;
    }
    Ok(())
}

/// The values of a row that are keys by themselves.
fn key_of(alloc: Global, outputs: &[Output], row: &[Value]) -> Result<Row, AllocError>
    ensures { IfOk result (λ key. key ≡ key_cells outputs.now row.now) }
{
    let mut cells = Vec::new(alloc);
    for (output, value) in outputs.iter().zip(row) {
        put_cell(&mut cells, output, value)?;
    }
    Ok(Row::from_vec(cells))
}

/// The last row of each key so far. Its memory grows with the keys alone, and not with the rows that were taken.
#[derive(Drop)]
pub(crate) struct Latest {
    rows: BTreeMap<Row, Row>,
}

impl Latest {
    /// No row.
    pub(crate) fn new(alloc: Global) -> Latest
        ensures { (outputs : List OutputOf) → IsLatest outputs [] result.rows.entries }
    {
        Latest {
            rows: BTreeMap::new(alloc),
        }
    }

    /// Takes a row, in place of the one of its key.
    pub(crate) fn put(
        &mut self,
        alloc: Global,
        outputs: &[Output],
        row: Row,
    ) -> Result<(), AllocError>
        requires { All (IfTime IsStampTime) row }
        ensures { (rows : List Values) → IsLatest outputs.now rows self.old.rows.entries → OnOk result (IsLatest outputs.now (rows ++ row ∷ []) self.new.rows.entries) }
    {
        let key = key_of(alloc, outputs, row.as_slice())?;
        self.rows.insert(key, row)?;
        Ok(())
    }

    /// The text of these rows, in the order of a sink file.
    pub(crate) fn into_text(self, alloc: Global, bound: &Bound) -> Result<Text, AllocError>
        requires { (rows : List Values) × IsLatest bound.now.outputs rows self.rows.entries }
        ensures { (rows : List Values) → IsLatest bound.now.outputs rows self.rows.entries → IfOk result (λ text. text ≡ sink_text bound.now (last_rows bound.now.outputs rows)) }
    {
        let rows = self.rows.into_values().collect(alloc)?;
        epoch_text(alloc, bound, rows)
    }
}
