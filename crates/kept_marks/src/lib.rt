//! Which rows of a set of assemblies are kept, and their numbers among those kept of their tables.
#![tactic(auto)]

mod choice;
mod kept;
pub mod law;
mod ranks;

pub use choice::FileChoice;
pub use kept::Kept;
