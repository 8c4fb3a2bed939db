//! The laws of a deployment: whatever is lost or repeated, and wherever the power stops and the flash fails, what is
//! found is what was found at the session's start or the new set.
#![tactic(auto)]

pub mod laws;
