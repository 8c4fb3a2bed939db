//! The exception clauses of the methods of an image, read in place (ECMA-335 II.25.4.6).
#![tactic(auto)]

mod clauses;
pub mod law;

pub use clauses::{ClauseKind, ClauseRow, clause};
