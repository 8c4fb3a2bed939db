//! The image of the kept rows of one file of a world.
#![tactic(auto)]

mod file;
mod refusal;

pub use file::file_image;
pub use refusal::ConvertRefusal;
