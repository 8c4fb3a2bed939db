//! What the references of a set of images name, the first that names nothing, and the first circle of types
//! (ECMA-335 II.22.5, II.22.38, II.22.25).
#![tactic(auto)]

mod bindings;
mod circle;
mod file;
mod lacking;
mod members;
mod sizes;
mod tables;

pub use bindings::{BindRefusal, Bindings, bind};
pub use lacking::LackingRow;
pub use members::{resolve_fields, resolve_methods};
pub use tables::ReferenceTable;
