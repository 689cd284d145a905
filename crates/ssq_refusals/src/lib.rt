//! Files that are refused, with the cause and the place of each, from the rules of the language. It holds tests alone.
#![tactic(auto)]

#[cfg(test)]
mod groups;
#[cfg(test)]
mod limits;
#[cfg(test)]
mod modes;
#[cfg(test)]
mod names;
#[cfg(test)]
mod told;
#[cfg(test)]
mod types;
