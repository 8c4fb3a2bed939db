//! What an instruction breaks whatever lies on the stack: the rule of its operand, and that of its number (ECMA-335 III.1.9).
#![tactic(auto)]

mod members;
mod rules;

pub use rules::broken;
