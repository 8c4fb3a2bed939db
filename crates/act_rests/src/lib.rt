//! What acts of instructions leave as it was: a law of the machine.
#![tactic(auto)]

pub mod law;
