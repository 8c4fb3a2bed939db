//! Rows of the metadata tables with their columns by name (ECMA-335 II.22).
#![tactic(auto)]

mod read;
mod rows;

pub use read::{find_row, read_row};
pub use rows::{
    AssemblyRefRow, AssemblyRow, ClassLayoutRow, FieldRow, FieldRvaRow, InterfaceImplRow,
    MemberRefRow, MethodDefRow, NestedClassRow, StandAloneSigRow, TableRow, TypeDefRow, TypeRefRow,
    TypeSpecRow,
};
