//! The texts of a checkpoint: the names of its files, and the records of its job, plans and commits.
#![tactic(auto)]

mod commit;
mod fields;
mod law;
mod lines;
mod meta;
mod names;
mod part;
mod plan;
mod seen;
mod seen_line;
mod writer;

pub use commit::{Commit, read_commit, write_commit};
pub use law::{names_are_apart, records_are_apart};
pub use meta::{Meta, read_meta, write_meta};
pub use names::{NameText, name_text, read_name};
pub use part::PartEnd;
pub use plan::{Plan, next_epoch, put_ends, read_plan, write_plan};
pub use seen::SeenBy;
pub use writer::Writer;
