//! In accepted files numbers are cut only where limits of the image are passed, and no limit changes by it.
//! It has no code: the laws are the contracts of functions with an empty body.
#![tactic(auto)]

pub mod law;
