//! What an instruction's effect needs to know of fields and methods, read from the table of a world's classes (ECMA-335 II.22.15, II.22.26).
#![tactic(auto)]

mod field;
mod flags;
pub mod law;
mod method;
mod places;

pub use field::field_operand;
pub use method::{MethodPlaces, method_operand, method_places};
pub use places::{class_place, place_type, place_types, result_type, this_type};
