//! The tests of types (ECMA-335 II.22.37, II.22.8, II.23.1.15).

ghost use Rattle.std.specs.Prelude.{◌≡◌, ℕ, suc, ◌+◌, ◌<◌, ◌/◌, ◌%◌, ◌^◌, ◌==◌, ◌&&◌, false, List, Some, length, slice_get, slice_index, unwrap_or};
ghost use Rattle.file_tables.specs.File.{FilePart};
ghost use Rattle.classes.specs.Classes.{Class};
ghost use Rattle.classes.specs.Queries.{fields_of, own_instance_fields};
ghost use Rattle.world_rows.specs.Tokens.{type_defs};
ghost use Rattle.world_rows.specs.World.{rows_alone, type_count};
ghost use Rattle.member_keys.specs.Seen.{class_seen};
ghost use Rattle.class_table.specs.declared.rows.FileRows.{FileRows};
ghost use Rattle.class_table.specs.Seen.{classes_seen, kind_seen, row_seen};
ghost use Rattle.class_rules.specs.Rules.{only_if, is_none_there, is_user, extends_well};
ghost use Rattle.verdict_rules.specs.Order.{first_fault};
ghost use Rattle.verdict_rules.specs.World.{world_of};
ghost use Rattle.verdict_rules.specs.Types.{data_type_well, has_layout, is_found, type_well, class_tests, type_tests};
ghost use Rattle.profile_subject.specs.Faults.{row_fault};
ghost use Rattle.profile_subject.specs.Subject.{IsSubject};
ghost use Rattle.type_tests.specs.Columns.{IsColumns, AreColumns};
ghost use Rattle.type_tests.specs.Judged.{IsJudged, class_at, columns_at, world_at, placed_well, laid_well, data_laid_well};

use crate::columns::TypeColumns;
use crate::interfaces::count_types;
use crate::refusal::unless_kept;
use cil_rows::{TypeDefRow, read_row};
use cil_tables::Tables;
use class_checks::{
    extends_well, has_no_field, has_no_instance_field, is_enclosed_well, is_user, value_well,
};
use class_queries::find_class;
use class_table::{ClassRow, ClassTable, TypeKind};
use file_tables::numbers::{CLASS_LAYOUT, TYPE_DEF};
use file_tables::schema::Coded;
use member_keys::ClassId;
use member_reading::first_row;
use plain_types::fault::{Fault, Place};
use profile_subject::Subject;
use type_names::split;

/// A type that is judged: what its file says of it, and what the table of classes does.
#[derive(Clone, Copy)]
struct Judged<'s, 'w, 'a> {
    subject: &'s Subject<'w, 'a>,
    columns: &'s TypeColumns,
    tables: &'s Tables<'a>,
    class: ClassId,
    row: &'s ClassRow<'a>,
    def: TypeDefRow,
}

/// Whether a type of the file before a row of its types has that one's names.
fn is_named_before(columns: &TypeColumns, n: u32) -> bool
    ensures { result ≡ unwrap_or (slice_get columns.now.repeats.items n) false }
{
    columns.repeats.get(n as usize).copied().unwrap_or(false)
}

/// Whether the file has a layout of the type (ECMA-335 II.22.8).
fn has_layout(tables: &Tables<'_>, columns: &TypeColumns, n: u32) -> bool
    requires columns { IsColumns tables.now columns.now }
    requires row { n + 1 < 2 ^ 32 }
    ensures { result ≡ has_layout tables.now n }
{
    first_row(tables, &columns.layouts, CLASS_LAYOUT, 2, n + 1).is_some()
}

/// Whether a value type of the user's has no fields, and a layout.
fn data_well(judged: &Judged<'_, '_, '_>) -> bool
    requires { IsJudged judged.now }
    ensures { result ≡ only_if (is_user (class_seen judged.now.class)) (is_none_there (fields_of (classes_seen judged.now.subject.now.setting.table.now) (class_seen judged.now.class)) && has_layout judged.now.tables.now judged.now.class.row) }
{
    let subject = judged.subject;
    let _few = judged.tables.rows(TYPE_DEF);
    !is_user(judged.class)
        || (has_no_field(subject.setting.table, judged.class)
            && has_layout(judged.tables, judged.columns, judged.class.row))
}

/// Whether a type that is a data type, so no enum, has no fields, and a layout.
fn data_type_well(judged: &Judged<'_, '_, '_>) -> bool
    requires { IsJudged judged.now }
    ensures { (f : FileRows) → slice_get judged.now.subject.now.setting.table.now.files.items judged.now.class.file ≡ Some f → result ≡ data_type_well judged.now.tables.now (class_seen judged.now.class) (class_at f judged.now) (kind_seen judged.now.row.now.kind) }
{
    let row = judged.row;
    match row.kind {
        TypeKind::OtherValue => data_well(judged),
        _ => true,
    }
}

/// Whether a type says where each of its fields is (ECMA-335 II.23.1.15).
fn is_explicit(flags: u32) -> bool
    ensures { result ≡ ((flags / 8) % 4 == 2) }
{
    (flags / 8) % 4 == 2
}

/// Whether a type that says where each of its fields is has no fields of instances.
fn layout_well(table: &ClassTable<'_>, class: ClassId, flags: u32) -> bool
    ensures { result ≡ only_if ((flags / 8) % 4 == 2) (is_none_there (own_instance_fields (classes_seen table.now) (class_seen class))) }
{
    !is_explicit(flags) || has_no_instance_field(table, class)
}

/// Whether the types around a type end, and no type before it in its file has its names.
fn placed_well(judged: &Judged<'_, '_, '_>) -> bool
    requires { IsJudged judged.now }
    ensures { result ≡ placed_well judged.now }
{
    let subject = judged.subject;
    is_enclosed_well(&subject.setting, judged.class, count_types(subject))
        && !is_named_before(judged.columns, judged.class.row)
}

/// Whether a type has a layout that it may have, and stands well.
fn laid_well(judged: &Judged<'_, '_, '_>) -> bool
    requires { IsJudged judged.now }
    ensures { result ≡ laid_well judged.now }
{
    let subject = judged.subject;
    layout_well(subject.setting.table, judged.class, judged.def.flags) && placed_well(judged)
}

/// Whether a type has what a data type has where it is one, and a layout that it may have, and stands well.
fn data_laid_well(judged: &Judged<'_, '_, '_>) -> bool
    requires { IsJudged judged.now }
    ensures { (f : FileRows) → slice_get judged.now.subject.now.setting.table.now.files.items judged.now.class.file ≡ Some f → result ≡ data_laid_well f judged.now }
{
    data_type_well(judged) && laid_well(judged)
}

/// What rule 26 asks of a type.
fn type_well(judged: &Judged<'_, '_, '_>) -> bool
    requires { IsJudged judged.now }
    ensures { (f : FileRows) → slice_get judged.now.subject.now.setting.table.now.files.items judged.now.class.file ≡ Some f → result ≡ type_well (world_at judged.now) judged.now.tables.now (class_seen judged.now.class) (columns_at judged.now) (class_at f judged.now) }
{
    let subject = judged.subject;
    let row = judged.row;
    value_well(subject.setting.table, judged.class, row.kind) && data_laid_well(judged)
}

/// Whether a type extends nothing, or what it extends is found.
fn is_found(extends: u32, row: &ClassRow<'_>) -> bool
    ensures { (file : ℕ) (f : FileRows) (columns : List ℕ) → slice_index columns 3 ≡ extends → result ≡ is_found columns (row_seen file f row.now) }
{
    split(Coded::TypeDefOrRef, extends).row == 0 || row.superclass.is_some()
}

/// What rule 24 asks of a type.
fn superclass_well(judged: &Judged<'_, '_, '_>) -> bool
    requires { IsJudged judged.now }
    ensures { (f : FileRows) → result ≡ (is_found (columns_at judged.now) (class_at f judged.now) && extends_well (type_count (rows_alone judged.now.subject.now.world.now)) (classes_seen judged.now.subject.now.setting.table.now) (class_seen judged.now.class) (class_at f judged.now)) }
{
    let subject = judged.subject;
    let row = judged.row;
    is_found(judged.def.extends, row)
        && extends_well(&subject.setting, judged.class, row, count_types(subject))
}

/// What the rules 24 and 26 say of a type of a file.
fn class_fault(judged: &Judged<'_, '_, '_>, file: u16) -> Option<Fault>
    requires judged { IsJudged judged.now }
    requires file { file ≡ judged.now.class.file }
    ensures { (f : FileRows) → slice_get judged.now.subject.now.setting.table.now.files.items file ≡ Some f → result ≡ first_fault file type_defs (suc judged.now.class.row) (class_tests (world_at judged.now) judged.now.tables.now (class_seen judged.now.class) (columns_at judged.now) (class_at f judged.now)) }
{
    let _few = judged.tables.rows(TYPE_DEF);
    let place = Place {
        file,
        table: TYPE_DEF,
        row: judged.class.row + 1,
        offset: 0,
    };
    if superclass_well(judged) {
        unless_kept(type_well(judged), 26, place)
    } else {
        Some(Fault { rule: 24, place })
    }
}

/// What the rules 24 and 26 say of a row of a file's table of types, counted from 0: its superclass is found and may be extended
/// (ECMA-335 II.22.37); its fields are those of its kind, its layout is one that it may have (II.22.8, II.23.1.15), the types around it
/// go in no circle (II.22.32), and no type before it has its names. `None` where the row keeps them or isn't there.
pub fn type_fault<'a>(
    subject: &Subject<'_, 'a>,
    columns: &TypeColumns,
    file: u16,
    n: u32,
) -> Option<Fault>
    requires subject { IsSubject subject.now }
    requires file { file < length subject.now.world.now }
    requires columns { AreColumns subject.now.world.now file columns.now }
    ensures { (x : FilePart) → slice_get subject.now.world.now file ≡ Some x → result ≡ row_fault file x.metadata (record { table = type_defs; tests = type_tests (world_of subject.now.world.now) file x.metadata }) n }
{
    let tables = subject.world.tables(file);
    if n >= tables.rows(TYPE_DEF) {
        return None;
    }
    let class = ClassId {
        file: u32::from(file),
        row: n,
    };
    let row = find_class(subject.setting.table, class)?;
    let def: TypeDefRow = read_row(tables, n + 1);
    let judged = Judged {
        subject,
        columns,
        tables,
        class,
        row,
        def,
    };
    class_fault(&judged, file)
}
