//! The rules on fields and methods as tests of a file's rows: what each keeps in the type that lists it, and that no earlier one of the
//! type has its name and its signature (ECMA-335 II.22.15, II.22.26).
#![tactic(auto)]

mod field;
mod method;
mod owner;

pub use field::{field_apart, field_well};
pub use method::{method_apart, method_well};
