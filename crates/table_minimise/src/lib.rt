//! Which rows of a world's files are kept: those that any program needs, and those that the rules of rows keep with them.
#![tactic(auto)]

mod file;
mod files;
mod minimise;
mod numbers;
mod sources;

pub use minimise::needed;
