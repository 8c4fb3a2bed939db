//! The rules by which references keep their definitions: a reference to a type the type, one to a field the field, and one to a method
//! the method that it names (ECMA-335 II.22.25, II.22.38).
#![tactic(auto)]

pub mod law;
mod members;
mod rule;
mod types;

pub use members::{add_field_definitions, add_method_definitions};
pub use types::add_type_definitions;
