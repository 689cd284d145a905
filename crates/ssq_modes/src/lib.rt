//! Which queries may run in which mode of output.
#![tactic(auto)]

mod fault;
mod table;

pub use fault::ModeFault;
pub use table::check;
