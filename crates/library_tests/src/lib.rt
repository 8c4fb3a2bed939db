//! Rule 30 of the base library's two files: they have its types with their superclasses and its natives, and each internal call is
//! one of these (ECMA-335 II.22.37, II.23.1.11).
#![tactic(auto)]

mod base;
mod index;
mod library;
mod methods;
mod types;

pub use library::library_fault;
