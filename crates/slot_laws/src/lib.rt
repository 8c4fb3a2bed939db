//! What the rules 20 to 30 give of the slots of classes.
#![tactic(auto)]

pub mod law;
