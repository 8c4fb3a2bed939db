//! What is known of the operand of an instruction is all that its effect asks of it, in classes that break no rule.
//! It has no code: the law is the contract of a function with an empty body.
#![tactic(auto)]

pub mod law;
