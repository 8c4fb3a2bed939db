//! The rows of an image by name: what its tables say of assemblies and of types, with each text in place (ECMA-335 II.22).
#![tactic(auto)]

mod assembly;
mod references;
mod text;
mod types;

pub use assembly::{AssemblyName, Version, assembly_name, assembly_ref, assembly_ref_count};
pub use references::{Scope, TypeRef, type_ref, type_ref_count};
pub use types::{TypeName, type_count, type_name};
