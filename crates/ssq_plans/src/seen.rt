//! The greatest event times of streams.

/// The greatest event time of a watermarked stream.
#[derive(Clone, Copy)]
pub struct SeenBy {
    /// The stream's place in the query's order, from 0.
    pub stream: u32,
    /// In microseconds since 1970-01-01T00:00:00Z, of the years 1000 to 9000, and none where no time was read.
    pub time: Option<i64>,
}
