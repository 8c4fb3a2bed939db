//! Bodies of methods, their exception clauses and their instructions (ECMA-335 II.25.4, III.1.2).
#![tactic(auto)]

pub mod clause;
pub mod fault;
pub mod header;
pub mod instructions;
pub mod method_body;
mod sections;
pub mod walk;

pub use clause::Clause;
pub use fault::{CodeFault, FAULTY_BODY, NO_SUCH_OPCODE, PAST_THE_END};
pub use header::body;
pub use instructions::{Instr, SWITCH, instruction, switch_target};
pub use method_body::Body;
pub use walk::{can_go_on, first_fault, walk_laws};
