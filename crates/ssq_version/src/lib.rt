//! The state of a partition and its versions: what a partition keeps, what a version changes of it, and the bytes of both.
#![tactic(auto)]

mod applied;
mod change;
mod delta;
mod draft;
mod entries;
mod entry;
mod file;
mod form;
mod law;
mod layers;
mod map;
mod news;
mod snapshot;
mod state;

pub use applied::{apply, apply_owned};
pub use change::{Change, changes_are_kept};
pub use delta::{read_delta, write_delta};
pub use draft::Draft;
pub use entry::Entry;
pub use form::Form;
pub use law::{beginnings_stand_together, files_are_apart, states_have_a_change, versions_are_one};
pub use layers::{merge, read_entries, say_news, write_given};
pub use map::{Entries, entries_from};
pub use news::{are_news, write_news};
pub use snapshot::{read_snapshot, write_snapshot};
pub use state::{StateMap, begins_with, states_are_kept};
