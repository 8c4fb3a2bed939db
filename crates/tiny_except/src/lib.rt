//! Exceptions over a board's memory: throws, and the finally blocks on the way out (ECMA-335 I.12.4.2). No call takes memory of
//! the host.
//!
//! Nothing is kept of a plan but what lies in a finally's slot: an exception, or a place that a `leave` goes to. The rest of the
//! plan is looked for again where the finally ends.
#![tactic(auto)]

pub mod clauses;
mod frames;
pub mod law;
pub mod unwinding;

pub use board_types::subclass::Subclass;
pub use tiny_ram::{Ram, Spent};
pub use unwinding::{Thrown, end_finally, leave, throw};
