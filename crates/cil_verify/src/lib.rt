//! The verdict on a world's files: rules 20 to 54 in their order (ECMA-335 II.22, II.12.2, III.1.8).
#![tactic(auto)]

mod counts;
mod judge;
mod outcome;
mod phases;

pub use counts::{count_methods, count_types};
pub use judge::verdict;
pub use outcome::Verdict;
