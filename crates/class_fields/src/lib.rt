//! The instance fields of a class, those of its superclasses first (ECMA-335 I.8.10.1, II.22.37).
#![tactic(auto)]

mod chain;
mod fields;

pub use fields::{InstanceField, field_list};
