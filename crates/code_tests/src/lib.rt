//! Rules 41 to 44 of a method's code: its opcodes, where it ends, where it goes, and its exception clauses (ECMA-335 II.19, III.1.7).
#![tactic(auto)]

mod clauses;
mod laws;
mod tests;

pub use laws::{clause_laws, instruction_laws};
pub use tests::first_broken;
