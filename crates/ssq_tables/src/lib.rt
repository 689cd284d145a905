//! The laws of tables: what the epochs of a query show can be read back from its sink files.
#![tactic(auto)]

mod law;

pub use law::{checkpoints_hold_tables, shown_rows_are_stored, tables_agree};
