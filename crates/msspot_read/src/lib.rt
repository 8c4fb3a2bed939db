//! Images of assemblies (the deployed form of one assembly), read in place over the bytes that hold them: without memory
//! of the heap, in one pass.
#![tactic(auto)]

mod body;
mod clauses;
mod columns;
mod entries;
mod image;
mod known;
mod marks;
mod parts;
mod rows;
mod signature;
mod tokens;

pub use image::{Image, NotImage};
pub use parts::TinyRow;
