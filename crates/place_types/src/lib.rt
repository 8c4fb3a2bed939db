//! Types of places and of the stack: what they hold, how they are spelt, and the order of types by that of their spellings.
#![tactic(auto)]

pub mod held;
pub mod law;
pub mod sorts;
pub mod spelling;
pub mod types;
