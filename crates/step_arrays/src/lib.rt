//! Instructions on arrays: `newarr`, `ldlen` and `ldelem` (ECMA-335 III.4.7, III.4.12, III.4.20).
#![tactic(auto)]

mod arrays;
mod elements;
mod found;

pub use arrays::{load_length, new_array};
pub use elements::load_element;
