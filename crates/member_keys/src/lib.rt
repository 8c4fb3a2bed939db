//! Members by name and signature: how the members of a class are looked up where the first one counts (ECMA-335 II.22.25).
#![tactic(auto)]

mod keys;
mod places;

pub use keys::{ClassId, ElementKey, MemberKey, PlaceKey, SignatureKey, TypeKey};
pub use places::member_places;
