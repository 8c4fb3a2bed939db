//! The types of a world, read: for each file its types without their members (ECMA-335 II.22.37).
#![tactic(auto)]

mod base;
mod fields;
mod files;
mod interfaces;
mod kinds;
mod library;
mod lists;
mod types;

pub use files::read_classes;
pub use library::find_library;
