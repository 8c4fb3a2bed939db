//! Makes assemblies of rows that are asked for one after the other (ECMA-335 II.22 to II.25).
#![tactic(auto)]

pub mod build;
pub mod refs;

pub use build::{Build, BuildRefusal};
pub use refs::RefRow;
