//! What is asked of the classes of a table: what stands above them, beside them and around them, and whether that ends.
#![tactic(auto)]

mod below;
mod chains;
mod graph;
mod numbers;
mod rows;

pub use below::{classes_below, is_below, is_sub};
pub use chains::{Heights, Way, chain_heights, ends};
pub use numbers::Numbers;
pub use rows::{enclosing, find_class, interfaces, is_interface, kind, superclass};
