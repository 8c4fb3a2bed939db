//! The words of the command line, and the text and the status of every outcome.
#![tactic(auto)]

pub mod jobs;
pub mod outcome;
pub mod texts;
pub mod words;

pub use jobs::{Job, JobRefusal};
pub use outcome::{End, Outcome};
pub use texts::{end_line, no_memory_text, status, text};
pub use words::job;
