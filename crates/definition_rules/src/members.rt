//! The rules of references to members (ECMA-335 II.22.25).

ghost use Rattle.std.specs.Prelude.{◌≡◌, suc, ◌<◌, OnOk, Some, length, slice_get};
ghost use Rattle.std.specs.Option.{option_map};
ghost use Rattle.file_tables.specs.File.{FilePart};
ghost use Rattle.machine.specs.Throw.{on_some};
ghost use Rattle.member_keys.specs.Seen.{class_seen};
ghost use Rattle.member_references.specs.Meant.{AreReferences, field_in, method_in, reference_at};
ghost use Rattle.definition_rules.specs.Definitions.{field_definitions, field_ref_count, method_definitions, method_ref_count};
ghost use Rattle.row_rules.specs.Links.{Adds};

use crate::rule::keep_definition;
use cil_world::World;
use file_tables::numbers::MEMBER_REF;
use member_keys::ClassId;
use member_references::{Reference, References};
use plain_types::fault::NoMemory;
use row_counts::is_field_reference;
use row_numbers::Table;
use row_rules::{RowPlace, RowRules};

/// What the row of MemberRef, from 0, means, if the file has it.
fn reference(references: &References, file: u16, n: u32) -> Option<Reference>
    ensures { result ≡ reference_at references.now file (suc n) }
{
    let rows = references.files.get(file as usize)?;
    rows.get(n as usize).copied()
}

/// The field that the row of MemberRef, from 0, names.
fn field(references: &References, file: u16, n: u32) -> Option<ClassId>
    ensures { option_map class_seen result ≡ on_some (reference_at references.now file (suc n)) field_in }
{
    match reference(references, file, n)? {
        Reference::Field(field) => field,
        Reference::Method(_) => None,
    }
}

/// The method that the row of MemberRef, from 0, names.
fn method(references: &References, file: u16, n: u32) -> Option<ClassId>
    ensures { option_map class_seen result ≡ on_some (reference_at references.now file (suc n)) method_in }
{
    match reference(references, file, n)? {
        Reference::Field(_) => None,
        Reference::Method(method) => method,
    }
}

/// Adds that each reference to a field of a file keeps the field that it names: the first of its name and type in the class that is its
/// parent, or else in the nearest of its superclasses that has one (ECMA-335 II.22.25). References to fields are numbered among
/// themselves. `references` are those of the world.
pub fn add_field_definitions(
    rules: &mut RowRules,
    world: &World<'_>,
    references: &References,
    file: u16,
) -> Result<(), NoMemory>
    requires file { file < length world.now }
    requires references { AreReferences world.now references.now }
    ensures { OnOk result ((x : FilePart) → slice_get world.now file ≡ Some x → Adds (field_definitions world.now file (field_ref_count x.metadata)) rules.old rules.new) }
{
    let tables = world.tables(file);
    let mut number: u32 = 0;
    for n in 0..tables.rows(MEMBER_REF) {
        if is_field_reference(tables, n) {
            let place = RowPlace {
                file,
                table: Table::FieldRef,
                row: number,
            };
            let definition = field(references, file, n);
            keep_definition(rules, place, world, Table::Field, definition)?;
            number += 1;
        }
    }
    Ok(())
}

/// Adds that each reference to a method of a file keeps the method that it names: the first of its name and signature in the class that
/// is its parent, or else in the nearest of its superclasses that has one (ECMA-335 II.22.25). References to methods are numbered among
/// themselves. `references` are those of the world.
pub fn add_method_definitions(
    rules: &mut RowRules,
    world: &World<'_>,
    references: &References,
    file: u16,
) -> Result<(), NoMemory>
    requires file { file < length world.now }
    requires references { AreReferences world.now references.now }
    ensures { OnOk result ((x : FilePart) → slice_get world.now file ≡ Some x → Adds (method_definitions world.now file (method_ref_count x.metadata)) rules.old rules.new) }
{
    let tables = world.tables(file);
    let mut number: u32 = 0;
    for n in 0..tables.rows(MEMBER_REF) {
        if !is_field_reference(tables, n) {
            let place = RowPlace {
                file,
                table: Table::MethodRef,
                row: number,
            };
            let definition = method(references, file, n);
            keep_definition(rules, place, world, Table::MethodDef, definition)?;
            number += 1;
        }
    }
    Ok(())
}
