//! The interpreter of the board: at present the evaluation of one method of constants.
#![tactic(auto)]

pub mod postfix;
pub mod stack;

pub use postfix::{is_postfix, run1};
