//! The laws of renamed programs and of typed programs, joined.
#![tactic(auto)]

pub mod law;
