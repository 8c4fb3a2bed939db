//! Members searched in a class and then up its superclasses (ECMA-335 II.22.25).
#![tactic(auto)]

mod index;
mod keys;
mod scan;
mod sort;
mod up;

pub use index::MemberIndex;
pub use keys::{field_key, method_key};
pub use sort::Sort;
