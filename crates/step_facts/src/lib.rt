//! What a listing tells of an instruction whatever its method: where it ends, what stands in front of it, whether it may go where it
//! goes, and the token of its operand (ECMA-335 III.1.7.5, III.1.9).
#![tactic(auto)]

mod front;
mod place;
mod transfers;

pub use front::falls_well;
pub use place::{behind, target_of, token};
pub use transfers::stands;
