//! The instruction at a place of a method's code, read in the image (ECMA-335 III.1.2, III.1.9, with tokens and long distances of
//! two bytes and a switch's count of one).
#![tactic(auto)]

mod instruction;
mod numbers;
mod opcode;
mod operand;

pub use instruction::{CodeInstr, instruction_at};
pub use operand::Number;
