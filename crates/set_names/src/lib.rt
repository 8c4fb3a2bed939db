//! The assemblies of a set of images, and what their references to assemblies and types name (ECMA-335 II.22.5, II.22.38).
#![tactic(auto)]

mod listed;
mod names;
mod referenced;
mod resolve;

pub use names::Names;
pub use resolve::{resolve_assemblies, resolve_types};
