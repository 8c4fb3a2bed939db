//! The rows that are kept of any program, as marks over the numbers of rows.
#![tactic(auto)]

mod entries;
pub mod law;
mod marks;
mod named;

pub use entries::{FIRST_USER_FILE, entry_row};
pub use marks::mark_roots;
