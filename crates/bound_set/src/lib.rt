//! A found set of images, bound: where its images begin, what its references name, and the classes that the machine needs by
//! their names (ECMA-335 II.22). It keeps places and numbers, and no row, text or code of the flash.
#![tactic(auto)]

mod binding;
mod bound;
mod ids;
mod library;
mod small;
mod view;

pub use binding::{BindRefusal, bind, bind_set};
pub use bound::Bound;
pub use library::{BasicRows, KnownClasses};
pub use view::view_set;
