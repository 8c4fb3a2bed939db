//! The native methods of the base library, over the board's memory.
#![tactic(auto)]

mod arrays;
mod copies;
pub mod ending;
mod fields;
mod find;
mod names;
pub mod native;
mod numbers;
mod objects;
mod pieces;
mod strings;
mod texts;

pub use ending::NativeEnd;
pub use native::call;
