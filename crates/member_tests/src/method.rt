//! Tests of methods (ECMA-335 II.22.26).

ghost use Rattle.std.specs.Prelude.{◌≡◌, ℕ, ◌<◌, ◌&&◌, IfOk, List, Some, length, slice_get, unwrap_or};
ghost use Rattle.std.specs.Option.{option_copied, option_map};
ghost use Rattle.file_tables.specs.Metadata.{rows_of};
ghost use Rattle.file_tables.specs.File.{FilePart};
ghost use Rattle.machine.specs.Throw.{on_some};
ghost use Rattle.assemblies.specs.Binding.{id_at};
ghost use Rattle.world_rows.specs.Rows.{is_internal};
ghost use Rattle.world_rows.specs.Tokens as tokens;
ghost use Rattle.member_keys.specs.Seen.{class_seen};
ghost use Rattle.class_table.specs.declared.rows.FileRows.{FileRows};
ghost use Rattle.class_table.specs.Seen.{body_seen, class_row, classes_seen, method_seen, row_seen};
ghost use Rattle.class_rules.specs.Rules.{method_stands_well};
ghost use Rattle.class_checks.specs.Bodies as bodies;
ghost use Rattle.class_checks.specs.Setting.{IsSetting};
ghost use Rattle.member_search.specs.declared.sort.Sort.TheVariants as sorts;
ghost use Rattle.verdict_rules.specs.World.{world_of, method_row, no_type};
ghost use Rattle.verdict_rules.specs.Members.{of_member, is_plain_method, no_class, with_body, method_well, is_method_apart};
ghost use Rattle.profile_subject.specs.Subject.{IsSubject};
ghost use Rattle.profile_subject.specs.Faults.{row_at};
ghost use Rattle.member_tests.specs.Rows.{method_found, def_of, columns_of};

use crate::owner::{class_in, is_first};
use cil_rows::{MethodDefRow, read_row};
use cil_tables::Tables;
use class_checks::{Setting, method_stands_well};
use class_queries::find_class;
use class_table::{Body, ClassRow, ClassTable, MethodRow, TypeKind};
use file_tables::bytes::has_bit;
use file_tables::numbers::{METHOD_DEF, TYPE_DEF};
use member_keys::ClassId;
use member_search::{MemberIndex, method_key};
use plain_types::fault::NoMemory;
use profile_subject::Subject;
use std::alloc::Global;

/// The method of a row, from 0.
fn find_method<'t, 'a>(table: &'t ClassTable<'a>, file: u16, n: u32) -> Option<&'t MethodRow<'a>>
    ensures { option_copied result ≡ method_found table.now file n }
{
    let rows = table.files.get(file as usize)?;
    rows.methods.get(n as usize)
}

/// The columns of the method of a row, from 0.
fn find_row(tables: &Tables<'_>, n: u32) -> Option<MethodDefRow>
    ensures { (row : List ℕ) → slice_get (rows_of tables.now tokens.methods) n ≡ Some row → result ≡ Some (def_of row) }
{
    if n < tables.rows(METHOD_DEF) {
        Some(read_row(tables, n + 1))
    } else {
        None
    }
}

/// An internal call (II.23.1.11).
fn is_internal(row: &MethodDefRow) -> bool
    ensures { result ≡ is_internal (columns_of row.now) }
{
    has_bit(u64::from(row.impl_flags), 12)
}

/// In IL, neither unmanaged nor synchronized nor P/Invoke, and an internal call in the library alone, without a body (II.23.1.10,
/// II.23.1.11).
fn is_plain(file: u16, row: &MethodDefRow) -> bool
    ensures { result ≡ is_plain_method file (columns_of row.now) }
{
    let impl_flags = u64::from(row.impl_flags);
    let is_unmanaged = has_bit(impl_flags, 2);
    let is_synchronized = has_bit(impl_flags, 5);
    let is_forwarded = has_bit(u64::from(row.flags), 13);
    let is_internal = is_internal(row);
    row.impl_flags % 4 == 0
        && !is_unmanaged
        && !is_synchronized
        && !is_forwarded
        && !(is_internal && (1 < file || row.rva != 0))
}

/// What runs where the method is called, with code in place of an internal call, whichever it is.
fn body_of(row: &MethodDefRow, method: &MethodRow<'_>) -> Body
    ensures { (file n : ℕ) → bodies.with_body (body_seen result) (method_seen file n method.now) ≡ with_body (columns_of row.now) (method_seen file n method.now) }
{
    if is_internal(row) {
        Body::Code
    } else {
        method.body
    }
}

/// What stands for the type of a method that none lists: nothing is asked of it.
fn no_class<'a>(alloc: Global) -> ClassRow<'a>
    ensures { (file : ℕ) (f : FileRows) → row_seen file f result ≡ no_class }
{
    ClassRow {
        namespace: "",
        name: "",
        enclosing: None,
        superclass: None,
        interfaces: Vec::new(alloc),
        kind: TypeKind::Reference,
        is_interface: true,
        is_abstract: true,
        is_lazy: false,
        first_field: 0,
        field_count: 0,
        first_method: 0,
        method_count: 0,
    }
}

/// A method that no type lists keeps what it is to.
fn stands_alone(
    alloc: Global,
    setting: &Setting<'_, '_>,
    none: ClassId,
    method: &MethodRow<'_>,
    body: Body,
) -> bool
    requires { IsSetting setting.now }
    ensures { (f : FileRows) (file n : ℕ) → result ≡ method_stands_well (classes_seen setting.now.table.now) (class_seen none) no_class (bodies.with_body (body_seen body) (method_seen file n method.now)) }
{
    let class = no_class(alloc);
    method_stands_well(setting, none, &class, method, body)
}

/// A method may stand in a type, if that is there.
fn stands_in(
    alloc: Global,
    setting: &Setting<'_, '_>,
    class: ClassId,
    none: ClassId,
    method: &MethodRow<'_>,
    body: Body,
) -> bool
    requires { IsSetting setting.now }
    ensures { (f : FileRows) (file n : ℕ) →
        let cs = classes_seen setting.now.table.now in
        let own = bodies.with_body (body_seen body) (method_seen file n method.now) in
        result ≡ unwrap_or (option_map (λ k. method_stands_well cs (class_seen class) k own) (class_row setting.now.table.now (class_seen class))) (method_stands_well cs (class_seen none) no_class own) }
{
    match find_class(setting.table, class) {
        Some(row) => method_stands_well(setting, class, row, method, body),
        None => stands_alone(alloc, setting, none, method, body),
    }
}

/// A method may stand in the type that lists it, or without one.
fn stands(
    alloc: Global,
    setting: &Setting<'_, '_>,
    file: u16,
    none: ClassId,
    method: &MethodRow<'_>,
    body: Body,
) -> bool
    requires { IsSetting setting.now }
    ensures { (f : FileRows) (n : ℕ) →
        let cs = classes_seen setting.now.table.now in
        let own = bodies.with_body (body_seen body) (method_seen file n method.now) in
        result ≡ unwrap_or (on_some (option_map (id_at file) method.now.owner) (λ c. option_map (λ k. method_stands_well cs c k own) (class_row setting.now.table.now c))) (method_stands_well cs (class_seen none) no_class own) }
{
    match method.owner {
        Some(row) => stands_in(alloc, setting, class_in(file, row), none, method, body),
        None => stands_alone(alloc, setting, none, method, body),
    }
}

/// A method of a row is of the kinds that are kept, and may stand where it does.
fn keeps(
    alloc: Global,
    setting: &Setting<'_, '_>,
    file: u16,
    none: ClassId,
    row: &MethodDefRow,
    method: &MethodRow<'_>,
) -> bool
    requires { IsSetting setting.now }
    ensures { (f : FileRows) (n : ℕ) →
        let cs = classes_seen setting.now.table.now in
        let own = with_body (columns_of row.now) (method_seen file n method.now) in
        result ≡ (is_plain_method file (columns_of row.now) && unwrap_or (on_some (option_map (id_at file) method.now.owner) (λ c. option_map (λ k. method_stands_well cs c k own) (class_row setting.now.table.now c))) (method_stands_well cs (class_seen none) no_class own)) }
{
    is_plain(file, row) && stands(alloc, setting, file, none, method, body_of(row, method))
}

/// Rule 29 of the method with these columns.
fn row_well(
    alloc: Global,
    subject: &Subject<'_, '_>,
    file: u16,
    n: u32,
    none: ClassId,
    row: &MethodDefRow,
) -> bool
    requires { IsSubject subject.now }
    ensures { let w = world_of subject.now.world.now in (x : FilePart) (columns : List ℕ) → class_seen none ≡ no_type file x → row.now ≡ def_of columns → result ≡ of_member (method_row w file n) (method_well w x columns) }
{
    match find_method(subject.setting.table, file, n) {
        Some(method) => keeps(alloc, &subject.setting, file, none, row, method),
        None => true,
    }
}

/// Rule 29 of the method of a row, which counts from 0: it is in IL, not synchronized and no P/Invoke, an internal call only in the
/// library, and its flags, its body and its name fit one another and the type that lists it. So it is where there is no such row.
pub fn method_well(alloc: Global, subject: &Subject<'_, '_>, file: u16, n: u32) -> bool
    requires subject { IsSubject subject.now }
    requires file { file < length subject.now.world.now }
    ensures { let w = world_of subject.now.world.now in (x : FilePart) (row : List ℕ) → slice_get w.files file ≡ Some x → row_at w.files file tokens.methods n ≡ Some row → result ≡ of_member (method_row w file n) (method_well w x row) }
{
    let tables = subject.world.tables(file);
    let none = class_in(file, tables.rows(TYPE_DEF));
    match find_row(tables, n) {
        Some(row) => row_well(alloc, subject, file, n, none, &row),
        None => true,
    }
}

/// Rule 30 of the method of a row, which counts from 0: no earlier method of the type that lists it has its name and its signature. So
/// it is where there is no such row.
pub fn method_apart<'a>(
    alloc: Global,
    subject: &Subject<'_, 'a>,
    index: &MemberIndex<'_, 'a>,
    file: u16,
    n: u32,
) -> Result<bool, NoMemory>
    requires subject { IsSubject subject.now }
    requires index { index.now ≡ record { sort = sorts.Method; table = subject.now.setting.table.now } }
    requires file { file < length subject.now.world.now }
    ensures { let w = world_of subject.now.world.now in IfOk result (λ apart. (x : FilePart) → slice_get w.files file ≡ Some x → apart ≡ of_member (method_row w file n) (is_method_apart w x)) }
{
    match find_method(subject.setting.table, file, n) {
        Some(method) => {
            let key = method_key(alloc, method)?;
            Ok(is_first(index, file, n, method.owner, &key))
        }
        None => Ok(true),
    }
}
