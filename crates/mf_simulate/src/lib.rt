//! A board that runs a converted set shows what the standard's machine shows of the files.
#![tactic(auto)]

pub mod law;
