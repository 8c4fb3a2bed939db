//! The rules of signatures (ECMA-335 II.23.2).

ghost use Rattle.std.specs.Prelude.{◌≡◌, [], ◌∷◌, OnOk};
ghost use Rattle.std.specs.List.{flat_map};
ghost use Rattle.kept_rules.specs.Row.{by_type, in_type, in_signature};
ghost use Rattle.world_rows.specs.Tokens.{coded_type, no_type};
ghost use Rattle.world_rows.specs.Signatures.{field_signature, method_signature, spec_signature, locals_signature};
ghost use Rattle.row_rules.specs.Links.{row_at, keeps, keeps_each, Adds};
ghost use Rattle.row_rules.specs.Named.{in_sig};

use crate::rules::{RowPlace, RowRules};
use crate::tokens::type_place;
use cil_sig::elements::is_named;
use cil_sig::{SigFault, SigType, field_sig, locals_sig, method_sig, spec_sig};
use cil_tables::Tables;
use file_tables::numbers::TYPE_DEF;
use file_tables::schema::Coded;
use plain_types::fault::NoMemory;
use row_numbers::Table;
use std::alloc::Global;
use type_names::split;

/// Adds that a row keeps the row of a type that a coded index names (ECMA-335 II.24.2.6).
pub fn keep_coded(
    rules: &mut RowRules,
    place: RowPlace,
    tables: &Tables<'_>,
    coded: Coded,
    index: u32,
) -> Result<(), NoMemory>
    ensures { OnOk result (Adds (keeps (row_at place) (by_type place.file (coded_type tables.now coded index)) ∷ []) rules.old rules.new) }
{
    let token = split(coded, index);
    rules.keep(place, type_place(tables, place.file, token))
}

/// Adds that a row keeps the row of a type of its signature, if that names one.
fn keep_type(
    rules: &mut RowRules,
    place: RowPlace,
    tables: &Tables<'_>,
    of: &SigType,
) -> Result<(), NoMemory>
    ensures { OnOk result (Adds (keeps_each (row_at place) (in_sig place.file tables.now of.now)) rules.old rules.new) }
{
    if is_named(of.elem) {
        keep_coded(rules, place, tables, Coded::TypeDefOrRef, of.token)
    } else {
        Ok(())
    }
}

/// Adds that a row keeps the rows of types of its signature.
fn keep_types(
    rules: &mut RowRules,
    place: RowPlace,
    tables: &Tables<'_>,
    types: &[SigType],
) -> Result<(), NoMemory>
    ensures { OnOk result (Adds (keeps_each (row_at place) (flat_map (in_sig place.file tables.now) types.now)) rules.old rules.new) }
{
    for of in types {
        keep_type(rules, place, tables, of)?;
    }
    Ok(())
}

/// A signature without a form names a type past the last, and so nothing.
fn keep_none(rules: &mut RowRules, place: RowPlace, tables: &Tables<'_>) -> Result<(), NoMemory>
    ensures { OnOk result (Adds (keeps (row_at place) (by_type place.file (no_type tables.now)) ∷ []) rules.old rules.new) }
{
    let none = RowPlace {
        file: place.file,
        table: Table::TypeDef,
        row: tables.rows(TYPE_DEF),
    };
    rules.keep(place, none)
}

/// Adds that a row keeps the row that the signature of a field names (ECMA-335 II.23.2.4).
pub fn keep_field(
    rules: &mut RowRules,
    place: RowPlace,
    tables: &Tables<'_>,
    blob: &[u8],
) -> Result<(), NoMemory>
    ensures { OnOk result (Adds (keeps_each (row_at place) (in_type place.file (field_signature tables.now blob.now))) rules.old rules.new) }
{
    match field_sig(blob) {
        Ok(of) => keep_type(rules, place, tables, &of),
        Err(_) => keep_none(rules, place, tables),
    }
}

/// Adds that a row keeps the row that a specification names (ECMA-335 II.23.2.14).
pub fn keep_spec(
    rules: &mut RowRules,
    place: RowPlace,
    tables: &Tables<'_>,
    blob: &[u8],
) -> Result<(), NoMemory>
    ensures { OnOk result (Adds (keeps_each (row_at place) (in_type place.file (spec_signature tables.now blob.now))) rules.old rules.new) }
{
    match spec_sig(blob) {
        Ok(of) => keep_type(rules, place, tables, &of),
        Err(_) => keep_none(rules, place, tables),
    }
}

/// Adds that a row keeps the rows that the signature of a method names (ECMA-335 II.23.2.1).
pub fn keep_method(
    alloc: Global,
    rules: &mut RowRules,
    place: RowPlace,
    tables: &Tables<'_>,
    blob: &[u8],
) -> Result<(), NoMemory>
    ensures { OnOk result (Adds (keeps_each (row_at place) (in_signature place.file (method_signature tables.now blob.now))) rules.old rules.new) }
{
    match method_sig(alloc, blob) {
        Ok(of) => {
            keep_type(rules, place, tables, &of.returns)?;
            keep_types(rules, place, tables, of.params.as_slice())
        }
        Err(SigFault::NoMemory) => Err(NoMemory),
        Err(SigFault::Bad { .. }) => keep_none(rules, place, tables),
    }
}

/// Adds that a row keeps the rows that a signature of locals names (ECMA-335 II.23.2.6).
pub fn keep_locals(
    alloc: Global,
    rules: &mut RowRules,
    place: RowPlace,
    tables: &Tables<'_>,
    blob: &[u8],
) -> Result<(), NoMemory>
    ensures { OnOk result (Adds (keeps_each (row_at place) (flat_map (in_type place.file) (locals_signature tables.now blob.now))) rules.old rules.new) }
{
    match locals_sig(alloc, blob) {
        Ok(types) => keep_types(rules, place, tables, types.as_slice()),
        Err(SigFault::NoMemory) => Err(NoMemory),
        Err(SigFault::Bad { .. }) => Ok(()),
    }
}
