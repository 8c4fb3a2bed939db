//! `callvirt` (ECMA-335 III.4.2) up to the object: whether its arguments are there and kept, and what `this` is.
#![tactic(auto)]

mod receiving;

pub use receiving::{Receiver, find_receiver};
