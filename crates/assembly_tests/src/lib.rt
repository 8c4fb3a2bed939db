//! Tests of what the builder, the base library and the generator write, through the readers.
#![tactic(auto)]

#[cfg(test)]
mod builder;
#[cfg(test)]
mod generator;
#[cfg(test)]
mod library;
