//! The verifier's forward pass: once over a method's instructions by rising offsets, with the types on the stack at each
//! (ECMA-335 III.1.7.5).
#![tactic(auto)]

mod code;
mod edges;
mod join;
mod lowest;
mod steps;
mod visit;

pub use code::{Broken, pass};
pub use steps::{Begins, StepFacts, Steps};
