//! The classes of a world as a table: what its files say of types and members, with each token replaced by what it names (ECMA-335 II.22.37, II.22.15, II.22.26).
#![tactic(auto)]

pub mod law;
pub mod rows;

pub use rows::{Body, ClassRow, ClassTable, FieldKind, FieldRow, FileRows, MethodRow, TypeKind};
