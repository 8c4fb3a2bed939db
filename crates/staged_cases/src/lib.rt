//! Cases of tests in lines of text: a method, or types, behind a stage that all share, with the verdict on them and the one that is
//! wanted.
#![tactic(auto)]

mod cases;
mod stage;

pub use cases::{Case, methods_told, methods_told_behind, types_told};
