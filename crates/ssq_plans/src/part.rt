//! The ends of parts.

/// How far a part is to be read.
#[derive(Clone, Copy)]
pub struct PartEnd {
    /// The stream's place in the query's order, from 0.
    pub stream: u32,
    /// The part's place in its stream, from 0.
    pub part: u32,
    /// The line after the last that is to be read.
    pub end: u64,
}
