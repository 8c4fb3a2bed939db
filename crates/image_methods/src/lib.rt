//! The rows of an image's methods and of their exception clauses, of the methods of a file that are kept.
#![tactic(auto)]

mod clauses;
pub mod law;
mod methods;

pub use clauses::clause_parts;
pub use methods::method_parts;
