//! In accepted files, and in each closed choice of their rows, operands are of the kind that their instructions take.
#![tactic(auto)]

pub mod law;
