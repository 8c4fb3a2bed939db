//! The words of a board's memory, three a cell: how values, elements and headers lie in them.
#![tactic(auto)]

pub mod cells;
pub mod elements;
pub mod elems;
pub mod frames;
pub mod headers;
pub mod region;
