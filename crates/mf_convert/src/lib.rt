//! The conversion: an accepted world becomes one set of images, or passes a limit.
#![tactic(auto)]

mod images;
pub mod law;
mod set;

pub use convert_kept::ConvertRefusal;
pub use set::convert;
