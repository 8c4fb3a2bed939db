//! Instructions on fields of objects: `ldfld`, `stfld` and `ldflda` (ECMA-335 III.4.10, III.4.11, III.4.28).
#![tactic(auto)]

mod fields;

pub use fields::{Field, load_field, load_field_address, store_field};
