//! In a set of assemblies no search needs more steps than the set has rows.
#![tactic(auto)]

pub mod law;
