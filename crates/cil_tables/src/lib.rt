//! The tables and heaps of a file's metadata (ECMA-335 II.22, II.24), read in place: rules 8 to 13, and rows, texts and
//! blobs without a copy.
#![tactic(auto)]

mod check;
mod fault;
mod headers;
mod heap;
mod layout;
mod root;
mod row;
mod shape;
mod tables;
mod text_index;
mod view;

pub use row::Row;
pub use tables::{Tables, stream};
