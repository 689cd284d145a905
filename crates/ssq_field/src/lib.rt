//! Fields of records and of state files: decimal numbers, and numbers of 4, 8 and 16 bytes.
#![tactic(auto)]

mod big_endian;
mod bytes;
mod decimal;
mod law;

pub use big_endian::{put_be32, put_be64, put_be128, take_be32, take_be64, take_be128};
pub use bytes::Bytes;
pub use decimal::{put_decimal, put_decimal_to, take_decimal};
pub use law::fields_are_apart;
