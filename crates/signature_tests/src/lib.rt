//! The signatures of rows: each has a form, and each type in it names one of its kind (ECMA-335 II.23.2).
#![tactic(auto)]

mod fits;
mod read;
mod rows;
mod walk;

pub use rows::{field_wrong, locals_wrong, method_wrong, reference_wrong, spec_wrong};
