//! The verifier's forward pass over a method of a world (ECMA-335 III.1.7.5, III.1.8).
#![tactic(auto)]

mod acts;
mod begins;
mod broken;
mod code;
mod judged;
mod known;
mod law;
mod method;
mod steps;

pub use judged::first_broken;
