//! The rows of references that a file's rows and bodies name.

ghost use Rattle.std.specs.Prelude.{◌≡◌, [], ◌∷◌, IfOk, OnOk, slice_index};
ghost use Rattle.std.specs.List.{flat_map};
ghost use Rattle.file_tables.specs.declared.schema.Coded.TheVariants.{TypeDefOrRef};
ghost use Rattle.file_tables.specs.Metadata.{rows_of};
ghost use Rattle.cil_sig.specs.Reading.{whole_field, whole_method, whole_locals};
ghost use Rattle.world_rows.specs.Tokens.{type_defs, fields, methods, interface_impls, locals_signatures, member_refs, type_specs, bytes_at};
ghost use Rattle.world_rows.specs.Lines.{body_part};
ghost use Rattle.world_rows.specs.Looked.{token_from, named_by_extends, named_by_field, named_by_method, named_by_locals, named_by_body};
ghost use Rattle.looked_rows.specs.Looked.{file_with, Looks, AreLookedAt};

use crate::body::read_body;
use crate::code::mark_body;
use crate::looked::Looked;
use crate::signature::{mark_coded, mark_field, mark_locals, mark_method};
use cil_rows::{FieldRow, InterfaceImplRow, MethodDefRow, StandAloneSigRow, TypeDefRow, read_row};
use cil_tables::Tables;
use file_tables::numbers::{FIELD, INTERFACE_IMPL, METHOD_DEF, STAND_ALONE_SIG, TYPE_DEF};
use pe_reader::Pe;
use plain_types::fault::NoMemory;
use std::alloc::Global;

/// The blob of a signature, or none (ECMA-335 II.24.2.4).
fn signature<'a>(tables: &Tables<'a>, at: u32) -> &'a [u8]
    ensures { result.now ≡ bytes_at tables.now at }
{
    tables.blob(at).unwrap_or(&[])
}

/// Marks what a type extends; row 0 is nothing.
fn mark_extends(looked: &mut Looked, extends: u32)
    ensures { Looks (named_by_extends extends) looked.old looked.new }
{
    if extends / 4 != 0 {
        mark_coded(looked, extends);
    }
}

/// Marks what the types of a file extend (ECMA-335 II.22.37).
fn mark_superclasses(looked: &mut Looked, tables: &Tables<'_>)
    ensures { Looks (flat_map (λ row. named_by_extends (slice_index row 3)) (rows_of tables.now type_defs)) looked.old looked.new }
{
    for n in 0..tables.rows(TYPE_DEF) {
        let row: TypeDefRow = read_row(tables, n + 1);
        mark_extends(looked, row.extends);
    }
}

/// Marks what the interface rows of a file name (ECMA-335 II.22.23).
fn mark_interfaces(looked: &mut Looked, tables: &Tables<'_>)
    ensures { Looks (flat_map (λ row. token_from TypeDefOrRef (slice_index row 1) ∷ []) (rows_of tables.now interface_impls)) looked.old looked.new }
{
    for n in 0..tables.rows(INTERFACE_IMPL) {
        let row: InterfaceImplRow = read_row(tables, n + 1);
        mark_coded(looked, row.interface);
    }
}

/// Marks what the signatures of a file's fields name (ECMA-335 II.22.15).
fn mark_fields(looked: &mut Looked, tables: &Tables<'_>)
    ensures { Looks (flat_map (λ row. named_by_field (whole_field (bytes_at tables.now (slice_index row 2)))) (rows_of tables.now fields)) looked.old looked.new }
{
    for n in 0..tables.rows(FIELD) {
        let row: FieldRow = read_row(tables, n + 1);
        mark_field(looked, signature(tables, row.signature));
    }
}

/// Marks what the signatures of a file's methods name (ECMA-335 II.22.26).
fn mark_methods(alloc: Global, looked: &mut Looked, tables: &Tables<'_>) -> Result<(), NoMemory>
    ensures { OnOk result (Looks (flat_map (λ row. named_by_method (whole_method (bytes_at tables.now (slice_index row 4)))) (rows_of tables.now methods)) looked.old looked.new) }
{
    for n in 0..tables.rows(METHOD_DEF) {
        let row: MethodDefRow = read_row(tables, n + 1);
        mark_method(alloc, looked, signature(tables, row.signature))?;
    }
    Ok(())
}

/// Marks what the signatures of locals of a file name (ECMA-335 II.22.36), each whether a body names it or not.
fn mark_all_locals(alloc: Global, looked: &mut Looked, tables: &Tables<'_>) -> Result<(), NoMemory>
    ensures { OnOk result (Looks (flat_map (λ row. named_by_locals (whole_locals (bytes_at tables.now (slice_index row 0)))) (rows_of tables.now locals_signatures)) looked.old looked.new) }
{
    for n in 0..tables.rows(STAND_ALONE_SIG) {
        let row: StandAloneSigRow = read_row(tables, n + 1);
        mark_locals(alloc, looked, signature(tables, row.signature))?;
    }
    Ok(())
}

/// Marks what the bodies of a file name (ECMA-335 II.25.4).
fn mark_bodies(
    alloc: Global,
    looked: &mut Looked,
    pe: &Pe<'_>,
    tables: &Tables<'_>,
) -> Result<(), NoMemory>
    ensures { OnOk result (Looks (flat_map (λ row. named_by_body (body_part (file_with pe.now tables.now) (slice_index row 0))) (rows_of tables.now methods)) looked.old looked.new) }
{
    let mut sections = pe.cursor();
    for n in 0..tables.rows(METHOD_DEF) {
        let row: MethodDefRow = read_row(tables, n + 1);
        let body = read_body(&mut sections, tables, row.rva);
        mark_body(alloc, looked, &body)?;
    }
    Ok(())
}

/// Which rows of a file's references are looked at: those that a superclass, an interface row, the signature of a field, of a
/// method or of locals, a catch or an instruction names. Each row, signature and instruction is read once.
pub fn looked_at(alloc: Global, pe: &Pe<'_>, tables: &Tables<'_>) -> Result<Looked, NoMemory>
    ensures members { IfOk result (λ looked. AreLookedAt (file_with pe.now tables.now) member_refs looked.members.items) }
    ensures specs { IfOk result (λ looked. AreLookedAt (file_with pe.now tables.now) type_specs looked.specs.items) }
{
    let mut looked = Looked::none(alloc, tables)?;
    mark_superclasses(&mut looked, tables);
    mark_interfaces(&mut looked, tables);
    mark_fields(&mut looked, tables);
    mark_methods(alloc, &mut looked, tables)?;
    mark_all_locals(alloc, &mut looked, tables)?;
    mark_bodies(alloc, &mut looked, pe, tables)?;
    Ok(looked)
}
