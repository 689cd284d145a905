//! Columns of streams and of results.

use crate::text::Text;

/// The types of columns. Each of them holds NULL too.
#[derive(Clone, Copy, Debug, PartialEq, Eq)]
pub enum ColType {
    /// Whole numbers of 64 bits.
    Bigint,
    /// UTF-8 texts.
    Str,
    /// Times, in microseconds since 1970-01-01T00:00:00Z.
    Timestamp,
    /// Truth values.
    Bool,
}

/// A named column and the type of its values.
#[derive(Drop)]
pub struct Column {
    pub name: Text,
    pub kind: ColType,
}
