//! The tool's end of a session: it deploys a set or not, runs what is found, fetches the text and closes.
#![tactic(auto)]

pub mod goal;
mod tool;

pub use goal::{Ending, Finish, Goal, Work};
pub use tool::Tool;
