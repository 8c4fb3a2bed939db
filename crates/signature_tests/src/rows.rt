//! The signatures of rows (ECMA-335 II.22). Offsets count from the first byte of the blob.

ghost use Rattle.std.specs.Prelude.{◌≡◌, ℕ, ◌<◌, ◌==◌, IfOk, length, slice_index};
ghost use Rattle.std.specs.Option.{option_copied, option_map};
ghost use Rattle.file_tables.specs.declared.schema.Coded.TheVariants.{MemberRefParent};
ghost use Rattle.machine.specs.Data.{Id};
ghost use Rattle.assemblies.specs.Binding.{id_at};
ghost use Rattle.world_rows.specs.Tokens.{begins_field, bytes_at, fields, methods, member_refs, locals_signatures, type_specs};
ghost use Rattle.type_names.specs.Resolved.{class_coded};
ghost use Rattle.class_table.specs.Seen as seen;
ghost use Rattle.class_rules.specs.Rules.{holds_some};
ghost use Rattle.verdict_rules.specs.World as world;
ghost use Rattle.verdict_rules.specs.Members as members;
ghost use Rattle.profile_subject.specs.Faults.{row_at};
ghost use Rattle.profile_subject.specs.Subject.{IsSubject};
ghost use Rattle.signature_tests.specs.Fits.{admits};
ghost use Rattle.signature_tests.specs.Rows.{TellsRow};

use crate::fits::Handles;
use crate::read::{
    fault_offset, field_blob_wrong, locals_blob_wrong, method_blob_wrong, spec_blob_wrong,
};
use crate::walk::place;
use cil_rows::{
    FieldRow, MemberRefRow, MethodDefRow, StandAloneSigRow, TableRow, TypeSpecRow, read_row,
};
use cil_sig::elements::FIELD;
use cil_sig::{Position, field_sig};
use class_checks::field_signature_fits;
use class_table::ClassTable;
use file_tables::schema::Coded;
use member_reading::bytes;
use plain_types::fault::NoMemory;
use profile_subject::Subject;
use std::alloc::Global;

/// The row of a table of a file, from 0; `None` where there is none.
fn find_row<R: TableRow>(subject: &Subject<'_, '_>, file: u16, n: u32) -> Option<R>
    requires { file < length subject.now.world.now }
    ensures { result ≡ option_map (λ row. R.of_columns (slice_index row)) (row_at subject.now.world.now file R.TABLE n) }
{
    let tables = subject.world.tables(file);
    if n >= tables.rows(R::TABLE) {
        return None;
    }
    Some(read_row(tables, n + 1))
}

/// The field of a row of the table.
fn find_field<'t, 'a>(
    table: &'t ClassTable<'a>,
    file: u16,
    n: u32,
) -> Option<&'t class_table::FieldRow<'a>>
    ensures { option_map (seen.field_seen file n) (option_copied result) ≡ seen.field_row table.now (id_at file n) }
{
    table.files.get(usize::from(file))?.fields.get(n as usize)
}

/// Whether the type of a field of a file fits; not where there is no such field.
fn field_fits(subject: &Subject<'_, '_>, file: u16, n: u32) -> bool
    requires subject { IsSubject subject.now }
    requires file { file < length subject.now.world.now }
    ensures { result ≡ members.own_field_fits (world.world_of subject.now.world.now) (world.field_row (world.world_of subject.now.world.now) file n) }
{
    let table = subject.setting.table;
    match find_field(table, file, n) {
        Some(field) => field_signature_fits(table, field),
        None => false,
    }
}

/// Where the signature of a field is wrong (ECMA-335 II.23.2.4): the offset at which it has no form, else that of its type where the field
/// may not have it. A data field may be of a data type. `None` where nothing is wrong, and where there is no row `n`, from 0.
pub fn field_wrong(subject: &Subject<'_, '_>, file: u16, n: u32) -> Option<u32>
    requires subject { IsSubject subject.now }
    requires file { file < length subject.now.world.now }
    ensures { TellsRow subject.now.world.now file fields n (λ m row. members.field_wrong (world.world_of subject.now.world.now) file n (bytes_at m (slice_index row 2))) result }
{
    let row: FieldRow = find_row(subject, file, n)?;
    let blob = bytes(subject.world.tables(file), row.signature);
    match field_sig(blob) {
        Ok(_) => {
            if field_fits(subject, file, n) {
                None
            } else {
                Some(place(Position::Field, blob))
            }
        }
        Err(fault) => Some(fault_offset(fault)),
    }
}

/// Which handles a method's parameters may be: those of the library's file.
fn handles_of(is_library: bool) -> Handles
    ensures { admits result ≡ is_library }
{
    if is_library {
        Handles::Admitted
    } else {
        Handles::Refused
    }
}

/// Where the signature of a method is wrong (ECMA-335 II.23.2.1): the offset at which it has no form, else that of the first type that may
/// not stand there. A parameter of the library's file, which is the first, may be a System.RuntimeFieldHandle. `None` where nothing is
/// wrong, and where there is no row `n`, from 0.
pub fn method_wrong(
    alloc: Global,
    subject: &Subject<'_, '_>,
    file: u16,
    n: u32,
) -> Result<Option<u32>, NoMemory>
    requires subject { IsSubject subject.now }
    requires file { file < length subject.now.world.now }
    ensures { IfOk result (TellsRow subject.now.world.now file methods n (λ m row. members.method_wrong (world.world_of subject.now.world.now) file m (file == 0) (bytes_at m (slice_index row 4)))) }
{
    let Some(row) = find_row::<MethodDefRow>(subject, file, n) else {
        return Ok(None);
    };
    let blob = bytes(subject.world.tables(file), row.signature);
    method_blob_wrong(alloc, subject, file, handles_of(file == 0), blob)
}

/// Whether the class that a reference to a member names is of the library's file.
fn is_of_library(subject: &Subject<'_, '_>, file: u16, class: u32) -> bool
    requires { file < length subject.now.world.now }
    ensures { result ≡ holds_some (class_coded subject.now.world.now file MemberRefParent class) (λ (c : Id). c.file == 0) }
{
    match subject
        .world
        .names()
        .find_class(file, Coded::MemberRefParent, class)
    {
        Some(class) => class.file == 0,
        None => false,
    }
}

/// A signature begins as that of a field.
fn begins_field(blob: &[u8]) -> bool
    ensures { result ≡ begins_field blob.now }
{
    match blob {
        [first, ..] => *first == FIELD,
        [] => false,
    }
}

/// Where the signature of a reference to a member is wrong (ECMA-335 II.23.2.2, II.23.2.4): the offset at which it has no form, else that of
/// the first type that may not stand there. A parameter may be a System.RuntimeFieldHandle where the class is of the library's file.
/// `None` where nothing is wrong, and where there is no row `n`, from 0.
pub fn reference_wrong(
    alloc: Global,
    subject: &Subject<'_, '_>,
    file: u16,
    n: u32,
) -> Result<Option<u32>, NoMemory>
    requires subject { IsSubject subject.now }
    requires file { file < length subject.now.world.now }
    ensures { IfOk result (TellsRow subject.now.world.now file member_refs n (members.reference_wrong (world.world_of subject.now.world.now) file)) }
{
    let Some(row) = find_row::<MemberRefRow>(subject, file, n) else {
        return Ok(None);
    };
    let blob = bytes(subject.world.tables(file), row.signature);
    if begins_field(blob) {
        return Ok(field_blob_wrong(subject, file, blob));
    }
    let handles = handles_of(is_of_library(subject, file, row.class));
    method_blob_wrong(alloc, subject, file, handles, blob)
}

/// Where the signature of locals is wrong (ECMA-335 II.23.2.6): the offset at which it has no form, else that of the first type that may not
/// stand there. `None` where nothing is wrong, and where there is no row `n`, from 0.
pub fn locals_wrong(
    alloc: Global,
    subject: &Subject<'_, '_>,
    file: u16,
    n: u32,
) -> Result<Option<u32>, NoMemory>
    requires subject { IsSubject subject.now }
    requires file { file < length subject.now.world.now }
    ensures { IfOk result (TellsRow subject.now.world.now file locals_signatures n (λ m row. members.locals_wrong (world.world_of subject.now.world.now) file m (bytes_at m (slice_index row 0)))) }
{
    let Some(row) = find_row::<StandAloneSigRow>(subject, file, n) else {
        return Ok(None);
    };
    locals_blob_wrong(
        alloc,
        subject,
        file,
        bytes(subject.world.tables(file), row.signature),
    )
}

/// Where the signature of a TypeSpec is wrong (ECMA-335 II.23.2.14): the offset at which it has no form, else that of its type where that may
/// not stand there. `None` where nothing is wrong, and where there is no row `n`, from 0.
pub fn spec_wrong(subject: &Subject<'_, '_>, file: u16, n: u32) -> Option<u32>
    requires subject { IsSubject subject.now }
    requires file { file < length subject.now.world.now }
    ensures { TellsRow subject.now.world.now file type_specs n (λ m row. members.spec_wrong (world.world_of subject.now.world.now) file m (bytes_at m (slice_index row 0))) result }
{
    let row: TypeSpecRow = find_row(subject, file, n)?;
    spec_blob_wrong(
        subject,
        file,
        bytes(subject.world.tables(file), row.signature),
    )
}
