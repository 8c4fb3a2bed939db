//! The rules by which types and their members keep one another, over the numbers of rows.
#![tactic(auto)]

pub mod law;
mod library;
mod members;
mod natives;
mod nesting;
mod parts;
mod places;

pub use library::{known_name, library_place};
pub use members::add_members;
pub use natives::{Thrown, find_thrown};
pub use nesting::add_enclosing;
