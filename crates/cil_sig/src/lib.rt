//! Signatures of methods, fields, locals and array types (ECMA-335 II.23.2).
#![tactic(auto)]

pub mod elements;
pub mod places;
mod reading;
pub mod sig;
pub mod signatures;
mod stop;

pub use places::{Position, element_place};
pub use sig::{MethodSig, SigFault, SigType};
pub use signatures::{field_sig, locals_sig, method_sig, spec_sig};
