//! What an instruction gives for the types that it takes (ECMA-335 III.1.5, III.1.8.1.2).
#![tactic(auto)]

pub mod given;
pub mod judge;
pub mod row;
