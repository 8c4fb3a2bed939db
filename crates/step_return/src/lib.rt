//! `ret` (ECMA-335 III.3.56): a frame ends, and its caller goes on behind the call.
#![tactic(auto)]

mod returning;

pub use returning::{Lines, Returned, return_value};
