//! The columns of SELECT, as rows of sink files have them.

ghost use Rattle.std.specs.Prelude.{◌≡◌, length, map, IfOk};
ghost use Rattle.ssq_json.specs.RowText.{heads_of};

use ssq_json::Heads;
use ssq_shape::Output;
use ssq_value::ColType;
use std::alloc::{AllocError, Global};

/// The heads of the columns of SELECT.
pub(crate) fn output_heads(alloc: Global, outputs: &[Output]) -> Result<Heads, AllocError>
    ensures { IfOk result (λ heads. heads ≡ heads_of (map (λ output. output.name) outputs.now)) }
{
    let mut heads = Heads::none(alloc);
    for output in outputs {
        heads.push(&output.name)?;
    }
    Ok(heads)
}

/// The types of the columns of SELECT.
fn output_kinds(alloc: Global, outputs: &[Output]) -> Result<Vec<ColType>, AllocError>
    ensures { IfOk result (λ kinds. kinds.items ≡ map (λ output. output.kind) outputs.now) }
{
    let mut kinds = Vec::with_capacity(alloc, outputs.len())?;
    for output in outputs {
        kinds.push(output.kind)?;
    }
    Ok(kinds)
}

/// The heads and the types of the columns of SELECT, as many of each, made once to read the rows of many lines.
#[derive(Drop)]
pub struct Columns {
    /// How each column begins in a line, from the left.
    pub heads: Heads,
    /// The type of each column, from the left.
    pub kinds: Vec<ColType>,
}

impl Columns {
    /// Those of these outputs of SELECT. It fails for want of memory alone.
    pub fn new(alloc: Global, outputs: &[Output]) -> Result<Columns, AllocError>
        ensures heads { IfOk result (λ columns. columns.heads ≡ heads_of (map (λ output. output.name) outputs.now)) }
        ensures kinds { IfOk result (λ columns. columns.kinds.items ≡ map (λ output. output.kind) outputs.now) }
        ensures same { IfOk result (λ columns. length columns.heads ≡ length columns.kinds.items) }
    {
        let heads = output_heads(alloc, outputs)?;
        let kinds = output_kinds(alloc, outputs)?;
        Ok(Columns { heads, kinds })
    }
}
