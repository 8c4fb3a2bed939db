//! What exceptions and natives ask of a bound set of images: which classes are below which, the clauses of methods with the
//! classes that their catches name, full names of types, and the bytes of fields. All is read in place, and no call takes
//! memory of the host.
#![tactic(auto)]

mod answers;
mod clauses;
pub mod law;
mod names;
mod set;
mod subclass;

pub use answers::{data_byte, is_sub};
pub use clauses::{clause, named};
pub use names::name_unit;
pub use set::BoundSet;
