//! What files that break none of the rules 20 to 31 give of their classes.
//! It has no code: `specs/` says when files are judged, and the laws are contracts of functions with empty bodies.
#![tactic(auto)]

pub mod law;
