//! Places in accepted code and in its shortened code lead to one another, and so the rows that are kept run as all rows do.
//! It has no code: the laws are the contracts of functions with an empty body.
#![tactic(auto)]

pub mod law;
