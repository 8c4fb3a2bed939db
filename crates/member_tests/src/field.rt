//! Tests of fields (ECMA-335 II.22.15).

ghost use Rattle.std.specs.Prelude.{◌≡◌, ℕ, ◌<◌, ◌&&◌, List, Option, is_some, length};
ghost use Rattle.std.specs.Option.{option_copied, option_map};
ghost use Rattle.assemblies.specs.Binding.{id_at};
ghost use Rattle.member_keys.specs.Seen.{class_seen};
ghost use Rattle.class_table.specs.Seen.{class_row, field_kind_seen, field_seen};
ghost use Rattle.class_table.specs.Whole.{HasData};
ghost use Rattle.class_rules.specs.Rules.{holds_some, is_data_kind, only_if, field_stands_well};
ghost use Rattle.member_search.specs.declared.sort.Sort.TheVariants as sorts;
ghost use Rattle.verdict_rules.specs.World.{world_of, field_row};
ghost use Rattle.verdict_rules.specs.Members.{of_member, field_well, is_field_apart};
ghost use Rattle.profile_subject.specs.Subject.{IsSubject};
ghost use Rattle.member_tests.specs.Rows.{field_found};

use crate::owner::{class_in, is_first};
use class_checks::field_stands_well;
use class_queries::find_class;
use class_table::{ClassTable, FieldKind, FieldRow};
use member_keys::ClassId;
use member_search::{MemberIndex, field_key};
use profile_subject::Subject;
use std::alloc::Global;

/// The field of a row, from 0.
fn find_field<'t, 'a>(table: &'t ClassTable<'a>, file: u16, n: u32) -> Option<&'t FieldRow<'a>>
    ensures { option_copied result ≡ field_found table.now file n }
{
    let rows = table.files.get(file as usize)?;
    rows.fields.get(n as usize)
}

/// If a field is one with data, it has bytes in a section.
fn has_bytes(field: &FieldRow<'_>) -> bool
    ensures { (there : Option (List ℕ)) → HasData field.now.kind there → result ≡ only_if (is_data_kind (field_kind_seen field.now.kind)) (is_some there) }
{
    match field.kind {
        FieldKind::Data(bytes) => bytes.is_some(),
        FieldKind::Instance | FieldKind::Static | FieldKind::Literal => true,
    }
}

/// A field may stand in a type.
fn stands_in(table: &ClassTable<'_>, class: ClassId, field: &FieldRow<'_>) -> bool
    ensures { (file n : ℕ) → result ≡ holds_some (class_row table.now (class_seen class)) (λ k. field_stands_well (class_seen class) k (field_seen file n field.now)) }
{
    match find_class(table, class) {
        Some(row) => field_stands_well(class, row, field),
        None => false,
    }
}

/// A field may stand in the type that lists it, if one does.
fn stands(table: &ClassTable<'_>, file: u16, field: &FieldRow<'_>) -> bool
    ensures { (n : ℕ) → result ≡ of_member (option_map (id_at file) field.now.owner) (λ c. holds_some (class_row table.now c) (λ k. field_stands_well c k (field_seen file n field.now))) }
{
    match field.owner {
        Some(row) => stands_in(table, class_in(file, row), field),
        None => true,
    }
}

/// A field may stand where it does, and has the bytes that it is to have.
fn keeps(table: &ClassTable<'_>, file: u16, field: &FieldRow<'_>) -> bool
    ensures { (n : ℕ) (there : Option (List ℕ)) → HasData field.now.kind there → result ≡ (of_member (option_map (id_at file) field.now.owner) (λ c. holds_some (class_row table.now c) (λ k. field_stands_well c k (field_seen file n field.now))) && only_if (is_data_kind (field_kind_seen field.now.kind)) (is_some there)) }
{
    stands(table, file, field) && has_bytes(field)
}

/// Rule 28 of the field of a row, which counts from 0: an interface has no instance fields, a value type of the user's that is no enum
/// only literals and data, and a field with data has its bytes in a section (II.16.3.2). So it is where there is no such row.
pub fn field_well(subject: &Subject<'_, '_>, file: u16, n: u32) -> bool
    requires subject { IsSubject subject.now }
    requires file { file < length subject.now.world.now }
    ensures { let w = world_of subject.now.world.now in result ≡ of_member (field_row w file n) (field_well w file n) }
{
    let _files = subject.world.files();
    match find_field(subject.setting.table, file, n) {
        Some(field) => keeps(subject.setting.table, file, field),
        None => true,
    }
}

/// Rule 30 of the field of a row, which counts from 0: no earlier field of the type that lists it has its name and its signature. So it
/// is where there is no such row.
pub fn field_apart<'a>(
    alloc: Global,
    subject: &Subject<'_, 'a>,
    index: &MemberIndex<'_, 'a>,
    file: u16,
    n: u32,
) -> bool
    requires subject { IsSubject subject.now }
    requires index { index.now ≡ record { sort = sorts.Field; table = subject.now.setting.table.now } }
    requires file { file < length subject.now.world.now }
    ensures { let w = world_of subject.now.world.now in result ≡ of_member (field_row w file n) (is_field_apart w file n) }
{
    let _files = subject.world.files();
    match find_field(subject.setting.table, file, n) {
        Some(field) => is_first(index, file, n, field.owner, &field_key(alloc, field)),
        None => true,
    }
}
