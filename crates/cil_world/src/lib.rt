//! The world of assemblies: its files, what their tokens name, and what they say of classes (ECMA-335 II.22).
#![tactic(auto)]

mod counts;
mod table;
mod world;

pub use type_names::{Unresolved, WorldRefusal};
pub use world::World;
