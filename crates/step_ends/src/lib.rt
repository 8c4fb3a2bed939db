//! How the acts of instructions over the board's memory end, beside the machine's.
#![tactic(auto)]

mod acted;

pub use acted::Acted;
