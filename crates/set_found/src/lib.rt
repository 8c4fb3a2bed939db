//! The set of images that is made of accepted files is found again in the flash, and its images are seen as the kept rows.
//! It has no code: the laws are the contracts of functions with an empty body.
#![tactic(auto)]

pub mod law;
