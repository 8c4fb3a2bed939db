//! The rules of one file's rows.

ghost use Rattle.std.specs.Prelude.{◌≡◌, ◌<◌, Some, OnOk, length, slice_get};
ghost use Rattle.file_tables.specs.File.{FilePart};
ghost use Rattle.looked_rows.specs.Looked.{file_with};
ghost use Rattle.member_references.specs.Meant.{AreReferences};
ghost use Rattle.row_rules.specs.Links.{Adds};
ghost use Rattle.table_minimise.specs.FileLinks.{reference_links, signature_links, method_links, type_links, definition_links, AddsFile};
ghost use Rattle.table_minimise.specs.Sources.{AreSources};

use crate::sources::Sources;
use body_rules::add_code_names;
use cil_tables::Tables;
use cil_world::World;
use class_table::{ClassTable, FileRows};
use definition_rules::{add_field_definitions, add_method_definitions, add_type_definitions};
use member_references::References;
use member_rules::{add_enclosing, add_members};
use pe_reader::Pe;
use plain_types::fault::NoMemory;
use row_rules::{
    RowRules, add_extends, add_field_refs, add_field_types, add_interfaces, add_method_refs,
    add_method_types, add_scopes, add_spec_types,
};
use slot_links::add_slots;
use std::alloc::Global;

/// Adds what a file's references keep: their scope, or their parent and the types of their signature (ECMA-335 II.22.25, II.22.38).
fn add_references(
    alloc: Global,
    rules: &mut RowRules,
    tables: &Tables<'_>,
    file: u16,
) -> Result<(), NoMemory>
    ensures { OnOk result (Adds (reference_links file tables.now) rules.old rules.new) }
{
    add_scopes(rules, tables, file)?;
    add_field_refs(rules, tables, file)?;
    add_method_refs(alloc, rules, tables, file)
}

/// Adds that a file's fields and specifications keep the types of their signature (ECMA-335 II.22.15, II.22.39).
fn add_signatures(rules: &mut RowRules, tables: &Tables<'_>, file: u16) -> Result<(), NoMemory>
    ensures { OnOk result (Adds (signature_links file tables.now) rules.old rules.new) }
{
    add_field_types(rules, tables, file)?;
    add_spec_types(rules, tables, file)
}

/// Adds that a file's methods keep the types of their signature and what their code names (ECMA-335 II.22.26, II.25.4).
fn add_methods(
    alloc: Global,
    rules: &mut RowRules,
    pe: &Pe<'_>,
    tables: &Tables<'_>,
    file: u16,
) -> Result<(), NoMemory>
    ensures { OnOk result (Adds (method_links file (file_with pe.now tables.now)) rules.old rules.new) }
{
    add_method_types(alloc, rules, tables, file)?;
    add_code_names(alloc, rules, pe, tables, file)
}

/// Adds that a file's types keep the type that they are nested in, what they extend and their interfaces (ECMA-335 II.22.37, II.22.32,
/// II.22.23).
fn add_types(
    rules: &mut RowRules,
    rows: &FileRows<'_>,
    tables: &Tables<'_>,
    file: u16,
) -> Result<(), NoMemory>
    ensures { OnOk result (Adds (type_links file tables.now rows.now) rules.old rules.new) }
{
    add_enclosing(rules, rows, file)?;
    add_extends(rules, tables, file)?;
    add_interfaces(rules, tables, file)
}

/// Adds that a file's references keep what they name (ECMA-335 II.22.25, II.22.38).
fn add_definitions(
    rules: &mut RowRules,
    world: &World<'_>,
    references: &References,
    file: u16,
) -> Result<(), NoMemory>
    requires file { file < length world.now }
    requires references { AreReferences world.now references.now }
    ensures { OnOk result ((x : FilePart) → slice_get world.now file ≡ Some x → Adds (definition_links world.now file x.metadata) rules.old rules.new) }
{
    add_type_definitions(rules, world, file)?;
    add_field_definitions(rules, world, references, file)?;
    add_method_definitions(rules, world, references, file)
}

/// The rows of a file in the table of classes.
fn file_rows<'t, 'a>(table: &'t ClassTable<'a>, file: u16) -> &'t FileRows<'a>
    requires { file < length table.now.files.items }
    ensures { slice_get table.now.files.items file ≡ Some result.now }
{
    &table.files[file as usize]
}

/// Adds the rules of a file's rows.
pub fn add_file(
    alloc: Global,
    rules: &mut RowRules,
    sources: &Sources<'_, '_>,
    file: u16,
) -> Result<(), NoMemory>
    requires sources { AreSources sources.now }
    requires file { file < length sources.now.world.now }
    ensures { OnOk result (AddsFile sources.now.world.now sources.now.methods.table file rules.old rules.new) }
{
    let tables = sources.world.tables(file);
    let pe = sources.world.pe(file);
    let rows = file_rows(sources.methods.table(), file);
    add_references(alloc, rules, tables, file)?;
    add_signatures(rules, tables, file)?;
    add_methods(alloc, rules, pe, tables, file)?;
    add_types(rules, rows, tables, file)?;
    add_definitions(rules, sources.world, sources.references, file)?;
    add_members(rules, rows, &sources.thrown, file)?;
    add_slots(alloc, rules, &sources.methods, file)?;
    Ok(())
}
