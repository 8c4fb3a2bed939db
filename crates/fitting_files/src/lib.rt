//! Within the limits of counts the numbers of an accepted file's image have two bytes.
//! It has no code: the laws are the contracts of functions with an empty body.
#![tactic(auto)]

pub mod law;
