//! What stays the same when a program's types, methods, fields and places are numbered anew: each law is the contract of a
//! function with nothing in it.
#![tactic(auto)]

pub mod law;
pub mod numbering;
