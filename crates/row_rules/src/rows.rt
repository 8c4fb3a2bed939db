//! The rules of the rows of a file's tables (ECMA-335 II.22).

ghost use Rattle.std.specs.Prelude.{◌≡◌, ◌∷◌, OnOk};
ghost use Rattle.file_tables.specs.Metadata.{rows_of};
ghost use Rattle.kept_rules.specs.Row.{TypeRefAt, TypeAt, FieldAt, MethodAt, SpecAt, in_option, token_row, in_scope};
ghost use Rattle.file_tables.specs.declared.schema.Coded.TheVariants.{TypeDefOrRef};
ghost use Rattle.world_rows.specs.Rows.{first_of};
ghost use Rattle.world_rows.specs.Tokens.{type_refs, type_defs, fields, methods, type_specs, bytes_at, scope_of, superclass_token};
ghost use Rattle.row_rules.specs.Links.{row_at, keeps_each, links_from, Adds};
ghost use Rattle.row_rules.specs.Named.{named_by_ref, named_by_extends, named_by_field, named_by_method, named_by_spec};

use crate::rules::{RowPlace, RowRules};
use crate::signature::{keep_coded, keep_field, keep_method, keep_spec};
use crate::tokens::scope_place;
use cil_rows::{FieldRow, MethodDefRow, TypeDefRow, TypeRefRow, TypeSpecRow, read_row};
use cil_tables::Tables;
use file_tables::numbers::{FIELD, METHOD_DEF, TYPE_DEF, TYPE_REF, TYPE_SPEC};
use file_tables::schema::Coded;
use plain_types::fault::NoMemory;
use row_numbers::Table;
use std::alloc::Global;

/// The blob of a signature, or none (ECMA-335 II.24.2.4).
pub fn signature<'a>(tables: &Tables<'a>, at: u32) -> &'a [u8]
    ensures { result.now ≡ bytes_at tables.now at }
{
    tables.blob(at).unwrap_or(&[])
}

/// Adds that a reference to a type keeps its scope, if it has one.
fn keep_scope(
    rules: &mut RowRules,
    place: RowPlace,
    tables: &Tables<'_>,
    scope: u32,
) -> Result<(), NoMemory>
    ensures { OnOk result (Adds (keeps_each (row_at place) (in_scope place.file (scope_of tables.now scope))) rules.old rules.new) }
{
    match scope_place(tables, place.file, scope) {
        Some(then) => rules.keep(place, then),
        None => Ok(()),
    }
}

/// Adds that a type keeps what it extends; row 0 is nothing.
fn keep_extends(
    rules: &mut RowRules,
    place: RowPlace,
    tables: &Tables<'_>,
    extends: u32,
) -> Result<(), NoMemory>
    ensures { OnOk result (Adds (keeps_each (row_at place) (in_option (token_row place.file) (first_of (superclass_token tables.now extends)))) rules.old rules.new) }
{
    if extends / 4 == 0 {
        return Ok(());
    }
    keep_coded(rules, place, tables, Coded::TypeDefOrRef, extends)
}

/// Adds that each reference to a type of a file keeps the assembly, or the reference to the type around it, that is its scope
/// (ECMA-335 II.22.38).
pub fn add_scopes(rules: &mut RowRules, tables: &Tables<'_>, file: u16) -> Result<(), NoMemory>
    ensures { OnOk result (Adds (links_from (TypeRefAt file) (named_by_ref file tables.now) 0 (rows_of tables.now type_refs)) rules.old rules.new) }
{
    for n in 0..tables.rows(TYPE_REF) {
        let row: TypeRefRow = read_row(tables, n + 1);
        let place = RowPlace {
            file,
            table: Table::TypeRef,
            row: n,
        };
        keep_scope(rules, place, tables, row.scope)?;
    }
    Ok(())
}

/// Adds that each type of a file keeps what it extends (ECMA-335 II.22.37).
pub fn add_extends(rules: &mut RowRules, tables: &Tables<'_>, file: u16) -> Result<(), NoMemory>
    ensures { OnOk result (Adds (links_from (TypeAt file) (named_by_extends file tables.now) 0 (rows_of tables.now type_defs)) rules.old rules.new) }
{
    for n in 0..tables.rows(TYPE_DEF) {
        let row: TypeDefRow = read_row(tables, n + 1);
        let place = RowPlace {
            file,
            table: Table::TypeDef,
            row: n,
        };
        keep_extends(rules, place, tables, row.extends)?;
    }
    Ok(())
}

/// Adds that each field of a file keeps the type of its signature (ECMA-335 II.22.15).
pub fn add_field_types(rules: &mut RowRules, tables: &Tables<'_>, file: u16) -> Result<(), NoMemory>
    ensures { OnOk result (Adds (links_from (FieldAt file) (named_by_field file tables.now) 0 (rows_of tables.now fields)) rules.old rules.new) }
{
    for n in 0..tables.rows(FIELD) {
        let row: FieldRow = read_row(tables, n + 1);
        let place = RowPlace {
            file,
            table: Table::Field,
            row: n,
        };
        keep_field(rules, place, tables, signature(tables, row.signature))?;
    }
    Ok(())
}

/// Adds that each method of a file keeps the types of its signature (ECMA-335 II.22.26).
pub fn add_method_types(
    alloc: Global,
    rules: &mut RowRules,
    tables: &Tables<'_>,
    file: u16,
) -> Result<(), NoMemory>
    ensures { OnOk result (Adds (links_from (MethodAt file) (named_by_method file tables.now) 0 (rows_of tables.now methods)) rules.old rules.new) }
{
    for n in 0..tables.rows(METHOD_DEF) {
        let row: MethodDefRow = read_row(tables, n + 1);
        let place = RowPlace {
            file,
            table: Table::MethodDef,
            row: n,
        };
        keep_method(
            alloc,
            rules,
            place,
            tables,
            signature(tables, row.signature),
        )?;
    }
    Ok(())
}

/// Adds that each specification of a file keeps the type that it says (ECMA-335 II.22.39).
pub fn add_spec_types(rules: &mut RowRules, tables: &Tables<'_>, file: u16) -> Result<(), NoMemory>
    ensures { OnOk result (Adds (links_from (SpecAt file) (named_by_spec file tables.now) 0 (rows_of tables.now type_specs)) rules.old rules.new) }
{
    for n in 0..tables.rows(TYPE_SPEC) {
        let row: TypeSpecRow = read_row(tables, n + 1);
        let place = RowPlace {
            file,
            table: Table::TypeSpec,
            row: n,
        };
        keep_spec(rules, place, tables, signature(tables, row.signature))?;
    }
    Ok(())
}
