//! Which types of the stack are assignable to which in a world, and what two paths that join leave (ECMA-335 III.1.8.1).
#![tactic(auto)]

mod fits;
mod joins;
pub mod law;
mod rows;
mod spell;

pub use fits::assignable;
pub use joins::merge;
