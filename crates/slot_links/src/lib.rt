//! The rules by which virtual methods of classes keep one another, over the numbers of rows (ECMA-335 II.10.3, II.12.2).
#![tactic(auto)]

mod fills;
pub mod law;
mod overrides;
mod places;
mod slots;

pub use slots::add_slots;
