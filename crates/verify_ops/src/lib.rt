//! One instruction's effect on the types on the stack (ECMA-335 III.1.8, part III).
#![tactic(auto)]

pub mod effect;
pub mod facts;
pub mod law;
pub mod members;
pub mod table;
pub mod typed;
