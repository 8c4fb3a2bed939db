//! `newobj` (ECMA-335 III.4.21): an object is made, and a frame of its constructor starts.
#![tactic(auto)]

mod making;

pub use making::{Made, new_object};
