//! The block flash of a board: its trait, what an operation makes of the content, and the moments of a call.
#![tactic(auto)]

pub mod flash;
pub mod flash_law;
