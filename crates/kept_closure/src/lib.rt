//! Which rows of a set of assemblies are kept, and what a closed choice of them holds together.
#![tactic(auto)]

pub mod law;
