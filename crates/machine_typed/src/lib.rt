//! When a program of the machine is typed, and the law that a typed program never gets stuck.
//! It has no code: `specs/` has the typing, and the laws are contracts of functions with empty bodies.
#![tactic(auto)]

pub mod law;
