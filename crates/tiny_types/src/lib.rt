//! Dispatch over the bound set of a board: which class is below which, which types fit where others are wanted, which body a call
//! finds, and how many fields an object has (ECMA-335 I.8.7, I.12.2.1, II.10.3). No call takes memory of the host.
#![tactic(auto)]

mod answers;
mod bodies;
mod bound;
mod calls;
mod fits;
mod found;
mod ids;
mod own;
mod small;
mod up;

pub use bodies::target;
pub use bound::{BoundTypes, bind_types};
pub use calls::{field_count, sub};
pub use fits::{cast, class_of_type};
pub use found::{FoundTarget, FoundTargets, find_target, no_targets};
