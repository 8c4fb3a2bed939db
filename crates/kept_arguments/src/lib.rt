//! The arguments of a call as a method's places keep them, while they still lie on the stack of the frame that calls.
#![tactic(auto)]

mod keeping;

pub use keeping::keep_arguments;
