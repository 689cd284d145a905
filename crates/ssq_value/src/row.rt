//! Rows, as contracts see them: the list of their values.

ghost use Rattle.std.specs.Prelude.{◌≡◌, ◌==◌, [], length};

use crate::value::Value;
use std::alloc::{AllocError, Global};
use std::marker::Model;

/// The values of a row, one for each column, from the left.
#[derive(Debug, Drop)]
pub struct Row(Vec<Value>);

impl Model for Row {
    ghost use Rattle.std.specs.Prelude.{List};
    ghost use Rattle.ssq_value.specs.declared.value.Value.{Value as Cell};

    ghost Value = { List Cell };

    ghost view = { λ row. row.0.items };
}

impl Row {
    /// A row without values.
    pub fn new(alloc: Global) -> Row
        ensures { result ≡ [] }
    {
        Row(Vec::new(alloc))
    }

    /// Takes the values over, without a copy.
    pub fn from_vec(values: Vec<Value>) -> Row
        ensures { result ≡ values.items }
    {
        Row(values)
    }

    /// Gives the values back, without a copy.
    pub fn into_vec(self) -> Vec<Value>
        ensures { result.items ≡ self }
    {
        let Row(values) = self;
        values
    }

    pub fn as_slice(&self) -> &[Value]
        ensures { result.now ≡ self.now }
    {
        self.0.as_slice()
    }

    /// The number of values.
    pub fn len(&self) -> usize
        ensures { result ≡ length self.now }
    {
        self.0.len()
    }

    pub fn is_empty(&self) -> bool
        ensures { result ≡ (length self.now == 0) }
    {
        self.0.is_empty()
    }
}

/// A copy in memory of its own.
impl Clone for Row {
    ghost is_clone = { λ old new. new ≡ old };

    fn clone(&self) -> Result<Row, AllocError> {
        Ok(Row(self.0.clone()?))
    }
}
