//! What the steps of all operators that keep state share: the index of keys by time, or of a join's rows, keys that go, a key that hashes, what an
//! epoch shows so far, what a step gives, and why it gives nothing.
#![tactic(auto)]

mod bytes;
mod closing;
mod copies;
mod fault;
mod forgetting;
mod index;
mod key;
mod rows;
mod shown;
mod stepped;

pub use bytes::{bytes_of_key, short};
pub use closing::Closing;
pub use copies::copied_row;
pub use fault::StepFault;
pub use forgetting::forget;
pub use key::Key;
pub use rows::{KeptRow, event_time, read_row, width_of};
pub use shown::Shown;
pub use stepped::Stepped;
