//! Worked runs of the whole engine: over the outside in memory, with its faults, and in a real folder. It holds tests alone, so
//! that the crates below are not proved a second time for them.
#![tactic(auto)]

#[cfg(test)]
mod fault_tests;
#[cfg(test)]
mod folder_tests;
#[cfg(test)]
mod generated;
#[cfg(test)]
mod group_tests;
#[cfg(test)]
mod grouped;
#[cfg(test)]
mod join_tests;
#[cfg(test)]
mod joined;
#[cfg(test)]
mod repeated;
#[cfg(test)]
mod rows;
#[cfg(test)]
mod table_tests;
#[cfg(test)]
mod tables;
#[cfg(test)]
mod tests;
#[cfg(test)]
mod upkeep_tests;
