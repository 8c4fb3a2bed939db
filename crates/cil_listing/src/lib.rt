//! The types and members of an assembly as lines of text, for people and for tests: a reader of the readers.
#![tactic(auto)]

pub mod assembly;
pub mod members;
pub mod types;
