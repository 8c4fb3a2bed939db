//! The types of a method's locals, and why the places that are read of a method are those that the verdict knows (ECMA-335 II.23.2.1,
//! II.23.2.6, II.25.4.3).
#![tactic(auto)]

pub mod law;
mod locals;

pub use locals::read_locals;
