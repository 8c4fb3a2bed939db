//! The types of the world of assemblies: ids of rows, types of places and of the stack, and what the effects of instructions ask of types.
#![tactic(auto)]

pub mod id;
pub mod lattice;
pub mod stack;
