//! The run of a bound query over the parts of its streams: the logs are counted, the checkpoint is opened, and then rounds are run, each
//! of which is told on the output when it is over.
//!
//! The definitions are in `specs/`: `Rounds` says how rounds cut the logs, `Told` what is told of epochs, `Faults` why a run stops whose round
//! did, `Ending` how rounds end, `Going` what holds between two of them, `Running` how a run goes from its logs on, `Sources` how a whole run over inputs does,
//! `Between` what a run is at between its steps, and `Complete` when it is never refused, meets no limit and finds no fault.
#![tactic(auto)]

mod ask;
mod fault;
mod index;
mod law;
mod lens;
mod line;
mod put;
mod rounds;
mod run;
mod source;

pub use ask::Ask;
pub use fault::RunFault;
pub use law::runs_go_on;
pub use source::{Ran, run_query};
