//! Which nodes of a graph have no way that goes in a circle, and how long their longest way is.
#![tactic(auto)]

mod all;
mod graph;
mod walk;

pub use all::heights;
pub use graph::Ways;
