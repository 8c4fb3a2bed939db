//! The base library: its two assemblies, made of the tables in `base_tables`, and the names of its natives.
#![tactic(auto)]

mod code;
mod fields;
mod items;
mod keys;
pub mod law;
pub mod library;
mod rows;
mod signatures;

pub use library::{files, native};
