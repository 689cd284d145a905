//! The values of rows, their types, their order, and the bytes of keys; and lists of anything.
#![tactic(auto)]

mod column;
mod compare;
mod keys;
mod row;
mod schema;
mod sequence;
mod text;
mod value;

pub use column::{ColType, Column};
pub use compare::{order, order_rows, orders_are_total};
pub use keys::{key_bytes, keys_are_apart, put_key};
pub use row::Row;
pub use schema::Schema;
pub use sequence::Sequence;
pub use text::{Text, texts_are_utf8};
pub use value::Value;
