//! How many rows a file has of the tables of which some rows are kept.
#![tactic(auto)]

mod counts;
pub mod law;

pub use counts::{begins_field, count_rows, is_field_reference};
