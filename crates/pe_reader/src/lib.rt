//! The PE part of a file (ECMA-335 II.25): headers, sections, and where the metadata stands.
#![tactic(auto)]

mod cli;
mod cursor;
mod header;
mod pe;
mod section;
mod span;

pub use cursor::SectionCursor;
pub use pe::{Pe, metadata};
