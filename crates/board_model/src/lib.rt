//! Definitions: a found set of images as assemblies, what its references name, and what keeps it from being bound.
#![tactic(auto)]

pub mod law;
