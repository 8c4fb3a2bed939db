//! What tokens of fields and methods name in a world: rows of the file itself, and references to members, each of them looked up once
//! (ECMA-335 II.22.15, II.22.25, II.22.26).
#![tactic(auto)]

mod members;
mod read;
mod reference;
mod resolve;

pub use read::read_references;
pub use reference::{Reference, References};
