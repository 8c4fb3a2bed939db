//! Calls: frames of methods with code start with their arguments (ECMA-335 III.3.19).
#![tactic(auto)]

mod arguments;
mod callee;
mod calls;

pub use arguments::{Given, Places, topmost};
pub use callee::Callee;
pub use calls::{call, lacks_room, start, without_cells};
