//! The types of the board: what its images' rows name, and what unwinding and the natives ask of them.
#![tactic(auto)]

pub mod board;
pub mod subclass;
pub mod value;
