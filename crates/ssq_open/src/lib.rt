//! Opens a checkpoint: what it holds is found and checked, and where it is empty it is begun. Or looks at it, which changes nothing.
#![tactic(auto)]

mod begin;
mod commits;
mod cuts;
mod fault;
mod job;
mod kept;
mod lengths;
mod lens;
mod listing;
mod looking;
mod opening;
mod owned;
mod plans;
mod read;
mod stateful;
mod stores;
mod streams;
mod unread;
mod wanted;

pub use cuts::begins;
pub use fault::OpenFault;
pub use looking::look;
pub use opening::open;
pub use owned::own_names;
pub use wanted::{Lens, Opened};
