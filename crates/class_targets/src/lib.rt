//! The bodies that virtual calls find (ECMA-335 I.12.2.1, II.10.3, III.4.2).
#![tactic(auto)]

mod call;
mod own;
mod rows;
mod up;

pub use call::{has_body_at, target};
pub use rows::{OwnedMethod, find_method, owned_method};
pub use up::implementing;
