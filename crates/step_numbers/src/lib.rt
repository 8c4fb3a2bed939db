//! Instructions that calculate with the stack's values or branch by them: arithmetic, shifts, comparisons, conversions, conditional
//! branches and `switch` (ECMA-335 III.3).
#![tactic(auto)]

mod branches;
mod operators;
mod stack;

pub use branches::{Targets, branch_compare_on, branch_if_on, switch_on};
pub use operators::{binary_on, compare_on, convert_checked_on, convert_on, shift_on, unary_on};
