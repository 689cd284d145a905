//! The top call of the engine: `stream_main` does all that the program does, over the traits of the outside.
//!
//! The definitions are in `specs/`: `Prepared` says what is to be done, `Program` how the program ends, `Going` what its promises presuppose, `Stopping` why it
//! stops and with which status, `Lines` what it tells, `Keys` how a key is told.
#![tactic(auto)]

mod done;
mod faults;
mod generate;
mod key;
mod look;
mod prepare;
mod show;
mod status;
mod stop;
mod stream;
mod tell;

pub use stop::{Stop, Wrong};
pub use stream::{Ended, stream_main};
