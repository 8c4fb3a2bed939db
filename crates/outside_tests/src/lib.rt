//! Tests of numbers in words, of the objects in memory and of the flash: which call fails, and what it leaves.
#![tactic(auto)]

#[cfg(test)]
mod flashes;
#[cfg(test)]
mod hubs;
#[cfg(test)]
mod links;
#[cfg(test)]
mod numbers;
#[cfg(test)]
mod sinks;
#[cfg(test)]
mod stores;
