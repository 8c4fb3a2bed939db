//! What the rules of a table's classes stand on.

use crate::library::Library;
use class_queries::Heights;
use class_table::ClassTable;

/// A table, the base library's classes that rules name, and which ways between its classes end.
#[derive(Drop)]
pub struct Setting<'t, 'a> {
    pub table: &'t ClassTable<'a>,
    pub library: Library,
    /// Up the superclasses.
    pub above: &'t Heights,
    /// From an interface to those that it implements.
    pub interfaces: &'t Heights,
    /// Out of nested types.
    pub around: &'t Heights,
    /// Which classes are Object or below it, by their numbers.
    pub under: &'t [Option<bool>],
}
