//! Values of the stack as places keep them, beside the machine's.
#![tactic(auto)]

mod keeping;

pub use keeping::{PlaceKind, keep};
