//! Rule 31: the slots of each class have bodies (ECMA-335 II.12.2).
#![tactic(auto)]

mod added;
mod first;

pub use first::first_unfilled;
