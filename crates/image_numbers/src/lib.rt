//! The numbers of two bytes that the tokens of a file's code get in the image of the file's kept rows.
#![tactic(auto)]

pub mod law;
mod members;
mod tokens;

pub use tokens::FileNumbers;
