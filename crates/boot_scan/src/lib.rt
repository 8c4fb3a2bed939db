//! What boot finds in the flash: the images of a set, in one of two banks or from the first byte on.
#![tactic(auto)]

mod banks;
mod finding;
mod image;
pub mod law;
mod sets;
mod walk;

pub use finding::{Located, Place, find, locate};
pub use sets::{Found, MOST_IMAGES, Set};
