//! Whether the slots of a class have bodies, and which methods a class has (ECMA-335 II.12.2).
#![tactic(auto)]

mod added;
mod own;
mod slots;

pub use added::{added_are_all, added_filled};
pub use own::{OwnRows, own_rows};
pub use slots::slots_filled;
