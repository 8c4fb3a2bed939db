//! Tests of worlds: files and what their tokens name.
#![tactic(auto)]

#[cfg(test)]
mod files;
#[cfg(test)]
mod members;
#[cfg(test)]
mod names;
