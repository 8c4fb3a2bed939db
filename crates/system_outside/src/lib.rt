//! The outside of a program: the files of the system, and standard output.
#![tactic(auto)]

mod file_store;
mod std_sink;

pub use file_store::FileStore;
pub use std_sink::StdSink;
