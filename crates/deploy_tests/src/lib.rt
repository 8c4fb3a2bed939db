//! Deployments over a flash in memory: packets twice, stops in each operation, failures, and many sessions on one flash.
#![tactic(auto)]

#[cfg(test)]
mod board;
#[cfg(test)]
mod rows;
#[cfg(test)]
mod sets;
