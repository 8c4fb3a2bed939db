//! The chains of a table's classes, of which the setting of the rules is made.

ghost use Rattle.std.specs.Prelude.{◌≡◌, IfOk};
ghost use Rattle.class_checks.specs.Setting.{IsSetting};
ghost use Rattle.profile_check.specs.Chains.{AreChains};

use class_checks::{Library, Setting, find_library, find_under};
use class_queries::{Heights, Way, chain_heights};
use class_table::ClassTable;
use plain_types::fault::NoMemory;
use std::alloc::Global;

/// The base library's classes that rules name, which ways between a table's classes end, and which classes are Object or below it.
#[derive(Drop)]
pub struct Chains {
    pub library: Library,
    /// Up the superclasses.
    pub above: Heights,
    /// From an interface to those that it implements.
    pub interfaces: Heights,
    /// Out of nested types.
    pub around: Heights,
    /// Which classes are Object or below it, by their numbers.
    pub under: Vec<Option<bool>>,
}

/// The chains of a table's classes, in the time of the number of classes and of what they name.
pub fn read_chains(alloc: Global, table: &ClassTable<'_>) -> Result<Chains, NoMemory>
    ensures { IfOk result (AreChains table.now) }
{
    let above = chain_heights(alloc, table, Way::Above)?;
    let interfaces = chain_heights(alloc, table, Way::Interfaces)?;
    let around = chain_heights(alloc, table, Way::Around)?;
    let library = find_library(table);
    let under = find_under(alloc, table, library, &above)?;
    Ok(Chains {
        library,
        above,
        interfaces,
        around,
        under,
    })
}

/// What the rules of a table's classes stand on.
pub fn setting_of<'t, 'a>(table: &'t ClassTable<'a>, chains: &'t Chains) -> Setting<'t, 'a>
    requires { AreChains table.now chains.now }
    ensures setting { IsSetting result }
    ensures table { result.table.now ≡ table.now }
{
    Setting {
        table,
        library: chains.library,
        above: &chains.above,
        interfaces: &chains.interfaces,
        around: &chains.around,
        under: &chains.under,
    }
}
