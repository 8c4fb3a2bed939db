//! The classes of a set of images as a table: what the images say of types and members, with each token replaced by what it
//! names (ECMA-335 II.22.37, II.22.15, II.22.26). What is asked of a world's classes is asked of a set's by this.
#![tactic(auto)]

mod fields;
pub mod law;
mod library;
mod methods;
mod owners;
mod subject;
mod table;
mod types;

pub use subject::{Subject, find_named};
pub use table::read_table;
