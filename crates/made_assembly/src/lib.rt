//! The generated workload: an assembly of as many classes as are asked for, whose methods call one another.
#![tactic(auto)]

pub mod generator;
pub mod law;

pub use generator::made;
