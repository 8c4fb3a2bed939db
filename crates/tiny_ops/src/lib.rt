//! The operators of the board: arithmetic, comparisons and conversions of two kinds of numbers, and comparisons of references.
#![tactic(auto)]

pub mod answer;
pub mod fits;
pub mod ints;
pub mod law;
pub mod longs;
pub mod operators;

pub use answer::OpEnd;
pub use operators::{binary, branch_compare, truth, unary};
