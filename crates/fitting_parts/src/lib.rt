//! When what is written for rows has numbers that fit their bytes.
//! It has no code: `specs/` says what is asked of the rows, and the law is the contract of a function with an empty body.
#![tactic(auto)]

pub mod law;
