//! Rules 41 to 44 of a method of a world, with the classes that its catches name (ECMA-335 II.19, II.25.4.6).
#![tactic(auto)]

mod catches;
mod method;

pub use catches::{find_exception, read_handled};
pub use method::first_broken;
