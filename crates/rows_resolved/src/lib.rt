//! Of files that the verdict accepts all that a conversion may keep means something.
//! It has no code: `specs/` says which rows these are, and the laws are contracts of functions with empty bodies.
#![tactic(auto)]

pub mod law;
