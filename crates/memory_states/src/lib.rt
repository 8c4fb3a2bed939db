//! Which states of the machine a board's memory stands for, and what follows for cells and objects.
#![tactic(auto)]

pub mod law;
