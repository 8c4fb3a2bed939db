//! What stands at a place of a bound set's code: the instruction, with what its operand names (ECMA-335 III.1.9). All is read in
//! place: no call takes memory of the host, and none goes over a table.
#![tactic(auto)]

mod code;
mod line;
mod lines;
mod members;
mod operand;
mod types;

pub use line::line_at;
pub use lines::{BoardLine, BoardOperand, LiteralAt, Targets};
