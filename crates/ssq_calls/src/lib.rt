//! Worked values of single public calls, taken from outside. It holds tests alone, so that the crates below are not proved a
//! second time for them.
#![tactic(auto)]

#[cfg(test)]
mod bound;
#[cfg(test)]
mod expr;
#[cfg(test)]
mod fakes;
#[cfg(test)]
mod field;
#[cfg(test)]
mod generated;
#[cfg(test)]
mod json;
#[cfg(test)]
mod lex;
#[cfg(test)]
mod names;
#[cfg(test)]
mod parse;
#[cfg(test)]
mod plans;
#[cfg(test)]
mod route;
#[cfg(test)]
mod sink;
#[cfg(test)]
mod time;
#[cfg(test)]
mod value;
#[cfg(test)]
mod version;
#[cfg(test)]
mod window;
#[cfg(test)]
mod words;
