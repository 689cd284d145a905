//! The model of a coordinator's desk: what it counts, where each task of an epoch is, what may be done next, and what each of
//! its entries does to them. A list of entries that may come is a legal list of events of the machine in `ssq_core`.
//!
//! The definitions are in `specs/`: `Causes` says how errors of the disk become causes; `Core` has the states, what may come in each and what it leaves; `Follows` says when a state
//! shows a desk of the machine; `Told` and `Rounds` say what follows of a whole list.
#![tactic(auto)]

mod front;
mod law;

pub use front::{Cause, Entry, Front, Place, Ready, RowFault};
pub use law::{entries, entry};
