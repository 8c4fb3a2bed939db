//! Rules 40 to 54: the code of all methods in the order of files and rows (ECMA-335 II.25.4, III.1.7, III.1.8).
#![tactic(auto)]

mod judge;
mod method;
mod order;
mod rows;

pub use order::first_fault;
