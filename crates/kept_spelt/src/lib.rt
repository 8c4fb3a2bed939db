//! What an image can spell of the rows of files, whether they are kept or not: names, versions and signatures.
//! It has no code: the laws are the contracts of functions with an empty body.
#![tactic(auto)]

pub mod law;
