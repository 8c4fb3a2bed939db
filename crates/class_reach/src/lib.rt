//! The classes and interfaces that a class reaches by superclasses and interfaces.
#![tactic(auto)]

mod found;
mod reach;

pub use reach::{reached, reached_until};
