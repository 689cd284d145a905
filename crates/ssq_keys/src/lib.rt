//! Values and keys out of the bytes that spell them: the way back from `ssq_value`'s keys.
#![tactic(auto)]

mod key;
mod value;

pub use key::{read_key, time_at};
pub use value::value_and_rest;
