//! Plain types that every crate shares: refusals and their places, element types, lists and texts in public fields; and when a count has risen.
#![tactic(auto)]

pub mod elem;
pub mod fault;
pub mod list;
