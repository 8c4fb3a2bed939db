//! The steps of the verdict's forward pass over a method, by what a listing tells of its bytes (ECMA-335 III.1.7.5): laws.
#![tactic(auto)]

mod laws;

pub use laws::{effects_act, front_laws, orders_agree, steps_stand, steps_tell};
