//! Signatures in images, each token replaced by the class that it names (ECMA-335 II.23.2, with type tokens of two bytes).
#![tactic(auto)]

pub mod law;
mod member;
mod parts;
mod tokens;

pub use member::{field_type, method_signature};
pub use tokens::{Tokens, class_of, element_at};
