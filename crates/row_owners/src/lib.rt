//! Which of some types has a row of the fields or methods of their file, where each has the rows of a span (ECMA-335 II.22.37).
#![tactic(auto)]

mod find;

pub use find::{Span, find_owners};
