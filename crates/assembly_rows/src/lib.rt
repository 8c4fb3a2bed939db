//! Small assemblies for tests: rows, the files that the builder makes of them, and changes of their bytes.
#![tactic(auto)]

pub mod change;
pub mod lines;
pub mod made;
