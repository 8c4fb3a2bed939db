//! Frames of initialisers (ECMA-335 II.10.5.3).
#![tactic(auto)]

mod initialising;

pub use initialising::start_class;
