//! The members that references mean.

ghost use Rattle.std.specs.Prelude.{◌≡◌, ◌+◌, ◌<◌, IfOk, Some, length, slice_get};
ghost use Rattle.std.specs.Option.{option_map};
ghost use Rattle.file_tables.specs.Metadata.{row_count, row_of};
ghost use Rattle.world_rows.specs.Rows.{field_ref, method_ref};
ghost use Rattle.world_rows.specs.Tokens.{member_refs, begins_field};
ghost use Rattle.member_keys.specs.Seen.{class_seen};
ghost use Rattle.member_references.specs.Meant.{AreMembers, field_meant, method_meant, IsMeant};

use crate::reference::Reference;
use cil_rows::{MemberRefRow, read_row};
use cil_sig::elements::FIELD;
use cil_tables::Tables;
use file_tables::numbers::MEMBER_REF;
use file_tables::schema::Coded;
use member_keys::ClassId;
use member_reading::{bytes, read_field_type, read_method_signature};
use member_search::MemberIndex;
use plain_types::fault::NoMemory;
use std::alloc::Global;
use type_names::{TypeNames, text};

/// The types of a world, and its members by name.
#[derive(Drop)]
pub struct Members<'w, 'a> {
    pub names: &'w TypeNames<'a>,
    pub fields: MemberIndex<'w, 'a>,
    pub methods: MemberIndex<'w, 'a>,
}

/// The field that a row of a file's MemberRef table means, from 0, if it is one of a field (ECMA-335 II.22.25).
fn find_field<'a>(
    alloc: Global,
    members: &Members<'_, 'a>,
    tables: &Tables<'a>,
    file: u16,
    n: u32,
) -> Option<ClassId>
    requires members { AreMembers members.now }
    requires file { file < length members.now.names.now }
    requires tables { option_map (λ p. p.metadata) (slice_get members.now.names.now file) ≡ Some tables.now }
    requires row { n < row_count tables.now member_refs }
    ensures { option_map class_seen result ≡ field_meant members.now.names.now file (field_ref tables.now (row_of tables.now member_refs (n + 1))) }
{
    let _few = tables.rows(MEMBER_REF);
    let row: MemberRefRow = read_row(tables, n + 1);
    let class = members
        .names
        .find_class(file, Coded::MemberRefParent, row.class)?;
    let of = read_field_type(members.names, file, bytes(tables, row.signature))?;
    members
        .fields
        .find_field(alloc, class, text(tables, row.name), of)
}

/// The method that a row of a file's MemberRef table means, from 0, if it is one of a method (ECMA-335 II.22.25).
fn find_method<'a>(
    alloc: Global,
    members: &Members<'_, 'a>,
    tables: &Tables<'a>,
    file: u16,
    n: u32,
) -> Result<Option<ClassId>, NoMemory>
    requires members { AreMembers members.now }
    requires file { file < length members.now.names.now }
    requires tables { option_map (λ p. p.metadata) (slice_get members.now.names.now file) ≡ Some tables.now }
    requires row { n < row_count tables.now member_refs }
    ensures { IfOk result (λ found. option_map class_seen found ≡ method_meant members.now.names.now file (method_ref tables.now (row_of tables.now member_refs (n + 1)))) }
{
    let _few = tables.rows(MEMBER_REF);
    let row: MemberRefRow = read_row(tables, n + 1);
    let Some(class) = members
        .names
        .find_class(file, Coded::MemberRefParent, row.class)
    else {
        return Ok(None);
    };
    let blob = bytes(tables, row.signature);
    let Some(signature) = read_method_signature(alloc, members.names, file, blob)? else {
        return Ok(None);
    };
    Ok(
        members
            .methods
            .find_method(class, text(tables, row.name), signature),
    )
}

/// The signature is a field's.
fn is_field(blob: &[u8]) -> bool
    ensures { result ≡ begins_field blob.now }
{
    match blob.first() {
        Some(first) => *first == FIELD,
        None => false,
    }
}

/// What a row of a file's MemberRef table means, from 0.
pub fn read_reference<'a>(
    alloc: Global,
    members: &Members<'_, 'a>,
    tables: &Tables<'a>,
    file: u16,
    n: u32,
) -> Result<Reference, NoMemory>
    requires members { AreMembers members.now }
    requires file { file < length members.now.names.now }
    requires tables { option_map (λ p. p.metadata) (slice_get members.now.names.now file) ≡ Some tables.now }
    requires row { n < row_count tables.now member_refs }
    ensures { IfOk result (IsMeant members.now.names.now file n) }
{
    let _few = tables.rows(MEMBER_REF);
    let row: MemberRefRow = read_row(tables, n + 1);
    if is_field(bytes(tables, row.signature)) {
        Ok(Reference::Field(find_field(alloc, members, tables, file, n)))
    } else {
        Ok(Reference::Method(find_method(alloc, members, tables, file, n)?))
    }
}
