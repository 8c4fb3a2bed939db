//! A board's memory in one region of words: objects from below, frames from above, and exactly so many cells of each.
#![tactic(auto)]

pub mod frames;
pub mod innermost;
pub mod law;
pub mod layout;
pub mod making;
pub mod memory;
pub mod parts;
pub mod places;

pub use board_types::value::{RamPlace, Shape, Value};
pub use memory::{Ram, Spent};
