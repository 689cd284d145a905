//! Times as texts, and spans of time as texts. A time is a number of microseconds since
//! 1970-01-01T00:00:00Z by the proleptic Gregorian calendar, without leap seconds; a span is a
//! number of microseconds.
#![tactic(auto)]

mod digits;
mod printer;
mod reader;
mod span;
mod years;

pub use printer::{put_time, time_text};
pub use reader::{read_stamp, read_time};
pub use span::read_span;
pub use years::{is_line_time, is_stamp_time};
