//! Files that the verdict accepts behind the base library are typed, and never get stuck.
#![tactic(auto)]

pub mod law;
