//! The effect of an instruction, told from what is known of it, is the step of the verdict's pass over the whole world.
//! It has no code: `specs/` has what the two are over, and the laws are contracts of functions with empty bodies.
#![tactic(auto)]

pub mod law;
