//! The bytes of an assembly's parts (ECMA-335 II.22 to II.25): its heaps, its tables and its headers, and the weight that
//! is counted while it is asked for.
#![tactic(auto)]

pub mod count;
pub mod heaps;
pub mod layout;
pub mod tables;
pub mod tokens;
pub mod write;
