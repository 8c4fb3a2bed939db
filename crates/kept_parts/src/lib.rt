//! The parts of the image of a file's kept rows: its header, its tables and its literals.
#![tactic(auto)]

pub mod law;
mod parts;
mod source;
mod tables;

pub use parts::kept_parts;
