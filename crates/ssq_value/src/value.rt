//! The values of columns.

ghost use Rattle.std.specs.Prelude.{◌≡◌};
ghost use Rattle.ssq_value.specs.Kind.{kind_of};

use crate::column::ColType;
use crate::text::Text;
use std::alloc::AllocError;

/// What a row holds in one column.
#[derive(Debug, Drop)]
pub enum Value {
    /// No value, in a column of any type.
    Null,
    /// A whole number of 64 bits.
    Int(i64),
    Text(Text),
    /// A time, in microseconds since 1970-01-01T00:00:00Z.
    Time(i64),
    Truth(bool),
}

impl Value {
    /// The type of the columns that hold such a value. NULL has none.
    pub fn kind(&self) -> Option<ColType>
        ensures { result ≡ kind_of self.now }
    {
        match self {
            Value::Null => None,
            Value::Int(_) => Some(ColType::Bigint),
            Value::Text(_) => Some(ColType::Str),
            Value::Time(_) => Some(ColType::Timestamp),
            Value::Truth(_) => Some(ColType::Bool),
        }
    }
}

/// A copy in memory of its own.
impl Clone for Value {
    ghost is_clone = { λ old new. new ≡ old };

    fn clone(&self) -> Result<Value, AllocError> {
        match self {
            Value::Null => Ok(Value::Null),
            Value::Int(number) => Ok(Value::Int(*number)),
            Value::Text(text) => Ok(Value::Text(text.clone()?)),
            Value::Time(time) => Ok(Value::Time(*time)),
            Value::Truth(truth) => Ok(Value::Truth(*truth)),
        }
    }
}
