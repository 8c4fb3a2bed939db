//! The rules of references to members, and of interfaces (ECMA-335 II.22.23, II.22.25).

ghost use Rattle.std.specs.Prelude.{◌≡◌, ◌∷◌, OnOk, map};
ghost use Rattle.std.specs.List.{filter};
ghost use Rattle.file_tables.specs.declared.schema.Coded.TheVariants.{MemberRefParent};
ghost use Rattle.file_tables.specs.Metadata.{rows_of};
ghost use Rattle.kept_rules.specs.Row.{FieldRefAt, MethodRefAt, by_type, in_type, in_signature};
ghost use Rattle.world_rows.specs.Tokens.{interface_impls, member_refs, is_field_ref, is_method_ref, bytes_at, coded_type};
ghost use Rattle.world_rows.specs.Signatures.{field_signature, method_signature};
ghost use Rattle.row_rules.specs.Links.{row_at, keeps_each, links_from, Adds};
ghost use Rattle.row_rules.specs.Named.{named_by_field_ref, named_by_method_ref, interface_link};

use crate::rows::signature;
use crate::rules::{RowPlace, RowRules};
use crate::signature::{keep_coded, keep_field, keep_method};
use crate::tokens::place;
use cil_rows::{InterfaceImplRow, MemberRefRow, read_row};
use cil_tables::Tables;
use file_tables::numbers::{INTERFACE_IMPL, MEMBER_REF, TYPE_DEF};
use file_tables::schema::Coded;
use plain_types::fault::NoMemory;
use row_counts::is_field_reference;
use row_numbers::Table;
use std::alloc::Global;

/// Adds that a reference to a field keeps its parent and the type of its signature.
fn keep_field_ref(
    rules: &mut RowRules,
    place: RowPlace,
    tables: &Tables<'_>,
    row: MemberRefRow,
) -> Result<(), NoMemory>
    ensures { OnOk result (Adds (keeps_each (row_at place) (by_type place.file (coded_type tables.now MemberRefParent row.class) ∷ in_type place.file (field_signature tables.now (bytes_at tables.now row.signature)))) rules.old rules.new) }
{
    keep_coded(rules, place, tables, Coded::MemberRefParent, row.class)?;
    keep_field(rules, place, tables, signature(tables, row.signature))
}

/// Adds that a reference to a method keeps its parent and the types of its signature.
fn keep_method_ref(
    alloc: Global,
    rules: &mut RowRules,
    place: RowPlace,
    tables: &Tables<'_>,
    row: MemberRefRow,
) -> Result<(), NoMemory>
    ensures { OnOk result (Adds (keeps_each (row_at place) (by_type place.file (coded_type tables.now MemberRefParent row.class) ∷ in_signature place.file (method_signature tables.now (bytes_at tables.now row.signature)))) rules.old rules.new) }
{
    keep_coded(rules, place, tables, Coded::MemberRefParent, row.class)?;
    keep_method(
        alloc,
        rules,
        place,
        tables,
        signature(tables, row.signature),
    )
}

/// Adds that each reference to a field of a file keeps its parent and the type of its signature (ECMA-335 II.22.25).
/// References to fields are numbered among themselves.
pub fn add_field_refs(rules: &mut RowRules, tables: &Tables<'_>, file: u16) -> Result<(), NoMemory>
    ensures { OnOk result (Adds (links_from (FieldRefAt file) (named_by_field_ref file tables.now) 0 (filter (is_field_ref tables.now) (rows_of tables.now member_refs))) rules.old rules.new) }
{
    let mut number: u32 = 0;
    for n in 0..tables.rows(MEMBER_REF) {
        if is_field_reference(tables, n) {
            let place = RowPlace {
                file,
                table: Table::FieldRef,
                row: number,
            };
            keep_field_ref(rules, place, tables, read_row(tables, n + 1))?;
            number += 1;
        }
    }
    Ok(())
}

/// Adds that each reference to a method of a file keeps its parent and the types of its signature (ECMA-335 II.22.25).
/// References to methods are numbered among themselves.
pub fn add_method_refs(
    alloc: Global,
    rules: &mut RowRules,
    tables: &Tables<'_>,
    file: u16,
) -> Result<(), NoMemory>
    ensures { OnOk result (Adds (links_from (MethodRefAt file) (named_by_method_ref file tables.now) 0 (filter (is_method_ref tables.now) (rows_of tables.now member_refs))) rules.old rules.new) }
{
    let mut number: u32 = 0;
    for n in 0..tables.rows(MEMBER_REF) {
        if !is_field_reference(tables, n) {
            let place = RowPlace {
                file,
                table: Table::MethodRef,
                row: number,
            };
            keep_method_ref(alloc, rules, place, tables, read_row(tables, n + 1))?;
            number += 1;
        }
    }
    Ok(())
}

/// Adds that each type of a file keeps the interfaces that the rows of InterfaceImpl say of it (ECMA-335 II.22.23).
pub fn add_interfaces(rules: &mut RowRules, tables: &Tables<'_>, file: u16) -> Result<(), NoMemory>
    ensures { OnOk result (Adds (map (interface_link file tables.now) (rows_of tables.now interface_impls)) rules.old rules.new) }
{
    for n in 0..tables.rows(INTERFACE_IMPL) {
        let row: InterfaceImplRow = read_row(tables, n + 1);
        let class = place(tables, file, Table::TypeDef, TYPE_DEF, row.class);
        keep_coded(rules, class, tables, Coded::TypeDefOrRef, row.interface)?;
    }
    Ok(())
}
