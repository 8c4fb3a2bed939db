//! Instructions that only go on, or change the stack alone: `nop`, `br`, `ldc`, `ldnull`, `ldtoken`, `dup` and `pop` (ECMA-335 III.3).
#![tactic(auto)]

mod stack;

pub use stack::{drop_top, duplicate, go_on, push_on};
