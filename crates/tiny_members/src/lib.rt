//! The rows of an image's types and members by name, each with its texts, signature and data in place (ECMA-335 II.22).
#![tactic(auto)]

mod fields;
mod flags;
mod methods;
mod references;
mod text;
mod types;

pub use fields::{FieldDef, field, field_count};
pub use methods::{MethodDef, method, method_count};
pub use references::{MemberRef, field_ref, field_ref_count, method_ref, method_ref_count};
pub use types::{RowRange, TypeDef, TypeToken, interface, type_def};
