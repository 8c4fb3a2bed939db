//! The verdict on a set of files.
#![tactic(auto)]

pub mod law;
