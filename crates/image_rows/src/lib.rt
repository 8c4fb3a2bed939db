//! The rows of an image's tables, each made of rows of the file that are kept: what a file refers to, its specifications, its types with
//! their interfaces, and its fields with their data; and its header.
#![tactic(auto)]

mod assembly;
pub mod columns;
mod fields;
mod interfaces;
pub mod law;
mod member_references;
mod references;
mod table;
mod types;
mod walk;

pub use assembly::{ImageHeader, header};
pub use fields::{data_parts, field_parts};
pub use interfaces::interface_parts;
pub use member_references::{field_reference_parts, method_reference_parts};
pub use references::{assembly_parts, reference_parts, spec_parts};
pub use types::type_parts;
