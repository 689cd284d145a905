//! What is told of an epoch.

/// What an epoch was, once it is acknowledged.
#[derive(Clone, Copy)]
pub struct Told {
    pub epoch: u32,
    /// How many lines it has.
    pub lines: u64,
    /// The watermark of its plan, in microseconds since 1970.
    pub watermark: Option<i64>,
    /// How many rows its sink file has.
    pub rows: u64,
}
