//! The image of a closed choice of an accepted set's rows is read as that choice.
#![tactic(auto)]

pub mod law;
