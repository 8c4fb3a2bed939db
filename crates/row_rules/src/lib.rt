//! The rules by which rows of a file's tables keep other rows, over the numbers of rows.
#![tactic(auto)]

pub mod law;
mod references;
mod rows;
mod rules;
mod signature;
mod tokens;

pub use references::{add_field_refs, add_interfaces, add_method_refs};
pub use rows::{add_extends, add_field_types, add_method_types, add_scopes, add_spec_types};
pub use rules::{RowPlace, RowRules};
pub use signature::keep_locals;
pub use tokens::{place, scope_place, type_place};
