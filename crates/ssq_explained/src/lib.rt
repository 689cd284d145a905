//! What is told of queries of each shape and mode, from the rules of the language. It holds tests alone.
#![tactic(auto)]

#[cfg(test)]
mod rows;
#[cfg(test)]
mod told;
