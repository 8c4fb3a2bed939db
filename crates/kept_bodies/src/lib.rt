//! The bodies of a file's kept methods, one after the other, and the literals that they load.
#![tactic(auto)]

pub mod law;
mod literals;
mod walk;

pub use literals::literal_parts;
pub use walk::{MethodParts, all_parts};
