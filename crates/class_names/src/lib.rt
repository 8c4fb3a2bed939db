//! The full names of classes as UTF-16 units (ECMA-335 II.22.37, II.22.32), unit by unit, out of the texts of a table. No call
//! takes memory.
#![tactic(auto)]

pub mod law;
mod names;
mod own;
mod text;

pub use names::name_unit;
