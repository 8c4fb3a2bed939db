//! What is known of the operand of an instruction: what its token names in a world (ECMA-335 III.1.9).
#![tactic(auto)]

pub mod law;
mod operand;
mod types;

pub use operand::read_operand;
