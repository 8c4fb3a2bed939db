//! The rows of a set of assemblies as numbers: assembly by assembly, and in each one table by table.
#![tactic(auto)]

mod numbers;
mod table;

pub use numbers::RowNumbers;
pub use table::{PerTable, Table, TableRange};
