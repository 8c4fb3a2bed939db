//! The tests of types, interfaces and assemblies of the profile: the rules 22 to 26 (ECMA-335 II.22.2, II.25.3.3, II.22.37, II.22.23,
//! II.22.8).
#![tactic(auto)]

mod columns;
mod entries;
mod interfaces;
mod names;
mod refusal;
mod types;

pub use columns::TypeColumns;
pub use entries::{Entries, entry_fault};
pub use interfaces::{count_types, interface_fault};
pub use names::{AssemblyNames, assembly_fault};
pub use refusal::unless_kept;
pub use types::type_fault;
