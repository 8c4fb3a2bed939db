//! What is said in a session over a link: its requests in order, each some times, each after a match of the one before.
#![tactic(auto)]

pub mod laws;
