//! Which rows are kept as rules over rows, and the least set of rows that has the roots and is closed under the rules.
#![tactic(auto)]

pub mod law;
