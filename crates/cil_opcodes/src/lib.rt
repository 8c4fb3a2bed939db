//! The instructions that are accepted, as one table: for each opcode its name, its operand and the shape of instruction
//! that it stands for (ECMA-335, partition III).
#![tactic(auto)]

pub mod shape;
pub mod table;

pub use shape::{Operand, Shape};
pub use table::row;
