//! The order in which the rules 20 to 30 are looked at: types in all files and then members, in each file its tables,
//! in each its rows.
#![tactic(auto)]

mod judge;
mod order;
mod rows;
mod tables;

pub use judge::{Judge, read_judge};
pub use order::profile_fault;
