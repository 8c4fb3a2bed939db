//! The image of the parts of a file's kept rows, or the first limit that they pass.
#![tactic(auto)]

mod image;
pub mod law;
mod refusal;

pub use image::parts_image;
pub use refusal::ImageRefusal;
