//! What a set of assemblies is converted into: which parts the kept rows of each file are, the images of the set, and the first
//! limit that they pass.
#![tactic(auto)]

pub mod law;
