//! A closed set of the rows of an accepted set runs as the whole set.
#![tactic(auto)]

pub mod law;
