//! Tokens and signatures of a file as the image of some of its rows says them.
#![tactic(auto)]

mod signatures;
mod tokens;
mod types;
mod words;

pub use signatures::{field_bytes, locals_bytes, method_bytes, spec_bytes};
pub use tokens::type_word;
pub use types::element_byte;
pub use words::two_bytes;
