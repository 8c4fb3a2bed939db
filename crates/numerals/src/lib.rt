//! Numbers in words.
#![tactic(auto)]

pub mod numeral;
