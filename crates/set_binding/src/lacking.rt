//! The first reference that names nothing.

ghost use Rattle.std.specs.Prelude.{◌≡◌, ◌<◌, ◌^◌, is_some, length};
ghost use Rattle.std.specs.Option.{option_map};
ghost use Rattle.board_model.specs.First.{first_from};
ghost use Rattle.board_model.specs.Bound.{lacking_table, lacking_assembly, first_lacking};
ghost use Rattle.scope_walk.specs.Walk.{value_at};
ghost use Rattle.set_names.specs.Names.{seen_all};
ghost use Rattle.set_binding.specs.Tables.{number_of};
ghost use Rattle.set_binding.specs.Columns.{IsBoundFile, AreBound};
ghost use Rattle.set_binding.specs.Lacking.{unnamed_at, row_seen};

use crate::sizes::assembly_count;
use crate::tables::{FileBindings, ReferenceTable};
use member_keys::ClassId;
use set_names::Names;

/// A row of an image's references that names nothing: the image's number in its set, the table and the row, from 0.
#[derive(Clone, Copy, Debug, PartialEq, Eq)]
pub struct LackingRow {
    pub assembly: u32,
    pub table: ReferenceTable,
    pub row: u32,
}

/// The row names something.
fn is_named(column: &[Option<ClassId>], n: usize) -> bool
    ensures { result ≡ is_some (value_at column.now n) }
{
    match column.get(n) {
        Some(class) => class.is_some(),
        None => false,
    }
}

/// The first row that names nothing.
fn first_unnamed(column: &[Option<ClassId>]) -> Option<u32>
    requires { length column.now < 2 ^ 32 }
    ensures { result ≡ first_from (length column.now) 0 (unnamed_at column.now) }
{
    for n in 0..column.len() {
        let named = is_named(column, n);
        if !named {
            return Some(n as u32);
        }
    }
    None
}

/// The first row of one table of an image that names nothing.
fn lacking_row(
    names: &Names<'_, '_>,
    bound: &FileBindings,
    file: u32,
    table: ReferenceTable,
) -> Option<LackingRow>
    requires { IsBoundFile (seen_all names.now) file bound.now }
    ensures { option_map row_seen result ≡ lacking_table (seen_all names.now) file (number_of table) }
{
    match first_unnamed(bound.column(table)) {
        Some(row) => Some(LackingRow {
            assembly: file,
            table,
            row,
        }),
        None => None,
    }
}

/// The first row of one image that names nothing, by table and row.
fn lacking_in(names: &Names<'_, '_>, bound: &FileBindings, file: u32) -> Option<LackingRow>
    requires { IsBoundFile (seen_all names.now) file bound.now }
    ensures { option_map row_seen result ≡ lacking_assembly (seen_all names.now) file }
{
    if let Some(row) = lacking_row(names, bound, file, ReferenceTable::Assemblies) {
        return Some(row);
    }
    if let Some(row) = lacking_row(names, bound, file, ReferenceTable::Types) {
        return Some(row);
    }
    if let Some(row) = lacking_row(names, bound, file, ReferenceTable::Fields) {
        return Some(row);
    }
    lacking_row(names, bound, file, ReferenceTable::Methods)
}

/// The first row of the image of a number that names nothing.
fn lacking_at(names: &Names<'_, '_>, files: &[FileBindings], file: u32) -> Option<LackingRow>
    requires files { AreBound (seen_all names.now) files.now }
    ensures { option_map row_seen result ≡ lacking_assembly (seen_all names.now) file }
{
    match files.get(file as usize) {
        Some(bound) => lacking_in(names, bound, file),
        None => None,
    }
}

/// The first row that names nothing, by assembly, table and row.
pub fn first_lacking(names: &Names<'_, '_>, files: &[FileBindings]) -> Option<LackingRow>
    requires few { length names.now < 2 ^ 32 }
    requires files { AreBound (seen_all names.now) files.now }
    ensures { option_map row_seen result ≡ first_lacking (seen_all names.now) }
{
    for file in 0..assembly_count(names) {
        if let Some(row) = lacking_at(names, files, file) {
            return Some(row);
        }
    }
    None
}
