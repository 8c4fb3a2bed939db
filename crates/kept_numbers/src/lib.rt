//! The rows of a set of assemblies laid end to end, as numbers, and the rows that are needed as the closure of rules over them.
#![tactic(auto)]

pub mod law;
