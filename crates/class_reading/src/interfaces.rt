//! The interfaces that types name (ECMA-335 II.22.23).

ghost use Rattle.std.specs.Prelude.{◌≡◌, ◌+◌, ◌<◌, IfOk, OnOk, Some, length, map, slice_get, take};
ghost use Rattle.std.specs.Option.{option_map};
ghost use Rattle.file_tables.specs.Metadata.{row_count, rows_of};
ghost use Rattle.world_rows.specs.Tokens.{interface_impls};
ghost use Rattle.class_reading.specs.Interfaces.{added_at, AreEmpty, HasInterfaces};

use cil_rows::{InterfaceImplRow, read_row};
use cil_tables::Tables;
use file_tables::numbers::INTERFACE_IMPL;
use file_tables::schema::Coded;
use member_keys::ClassId;
use plain_types::fault::NoMemory;
use std::alloc::Global;
use type_names::TypeNames;

/// No interfaces for each type.
fn no_interfaces(alloc: Global, count: u32) -> Result<Vec<Vec<ClassId>>, NoMemory>
    ensures count { IfOk result (λ lists. length lists.items ≡ count) }
    ensures empty { IfOk result (λ lists. AreEmpty (map (λ list. list.items) lists.items)) }
{
    let mut lists = Vec::new(alloc);
    for _n in 0..count {
        lists.push(Vec::new(alloc))?;
    }
    Ok(lists)
}

/// Notes an interface with a type.
fn add_interface(lists: &mut Vec<Vec<ClassId>>, n: u32, interface: ClassId) -> Result<(), NoMemory>
    ensures size { OnOk result (length lists.new.items ≡ length lists.old.items) }
    ensures added { OnOk result (map (λ list. list.items) lists.new.items ≡ added_at (map (λ list. list.items) lists.old.items) n interface) }
{
    if (n as usize) < lists.len() {
        lists[n as usize].push(interface)?;
    }
    Ok(())
}

/// Notes what the row of a number says, from 0.
fn read_interface(
    lists: &mut Vec<Vec<ClassId>>,
    names: &TypeNames<'_>,
    file: u16,
    tables: &Tables<'_>,
    n: u32,
) -> Result<(), NoMemory>
    requires file { file < length names.now }
    requires tables { option_map (λ p. p.metadata) (slice_get names.now file) ≡ Some tables.now }
    requires row { n < row_count tables.now interface_impls }
    requires so_far { HasInterfaces names.now file tables.now (take n (rows_of tables.now interface_impls)) (map (λ list. list.items) lists.old.items) }
    ensures size { OnOk result (length lists.new.items ≡ length lists.old.items) }
    ensures interfaces { OnOk result (HasInterfaces names.now file tables.now (take (n + 1) (rows_of tables.now interface_impls)) (map (λ list. list.items) lists.new.items)) }
{
    let _few = tables.rows(INTERFACE_IMPL);
    let row: InterfaceImplRow = read_row(tables, n + 1);
    let Some(interface) = names.find_class(file, Coded::TypeDefOrRef, row.interface) else {
        return Ok(());
    };
    if row.class == 0 {
        return Ok(());
    }
    add_interface(lists, row.class - 1, interface)
}

/// For each type of a file the interfaces that its rows name and that are found, in the order of the rows.
pub fn read_interfaces(
    alloc: Global,
    names: &TypeNames<'_>,
    file: u16,
    tables: &Tables<'_>,
    count: u32,
) -> Result<Vec<Vec<ClassId>>, NoMemory>
    requires file { file < length names.now }
    requires tables { option_map (λ p. p.metadata) (slice_get names.now file) ≡ Some tables.now }
    ensures count { IfOk result (λ lists. length lists.items ≡ count) }
    ensures interfaces { IfOk result (λ lists. HasInterfaces names.now file tables.now (rows_of tables.now interface_impls) (map (λ list. list.items) lists.items)) }
{
    let mut lists = no_interfaces(alloc, count)?;
    for n in 0..tables.rows(INTERFACE_IMPL) {
        read_interface(&mut lists, names, file, tables, n)?;
    }
    Ok(lists)
}
