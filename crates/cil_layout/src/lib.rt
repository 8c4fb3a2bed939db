//! What is asked of the builder of assemblies, and the one list of bytes that stands for it
//! (ECMA-335 II.22 to II.25).
#![tactic(auto)]

pub mod fixed;
pub mod headers;
pub mod places;
pub mod rows;
