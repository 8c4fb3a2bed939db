//! Which classes catches may take (ECMA-335 II.19, I.12.4.2).

ghost use Rattle.std.specs.Prelude.{◌≡◌, ◌<◌, ◌^◌, IfOk, List, Some, length, map, slice_get};
ghost use Rattle.std.specs.Option.{option_map};
ghost use Rattle.plain_types.specs.declared.elem.Elem.TheVariants as elem;
ghost use Rattle.file_tables.specs.File.{FilePart};
ghost use Rattle.classes.specs.Code.{CatchOf};
ghost use Rattle.classes.specs.Queries.{basic, is_sub, some_eq};
ghost use Rattle.machine.specs.Data.{Id};
ghost use Rattle.member_keys.specs.Seen.{class_seen};
ghost use Rattle.class_table.specs.Whole.{IsTable};
ghost use Rattle.class_queries.specs.Numbers.{total_of};
ghost use Rattle.type_names.specs.Resolved.{type_id, type_resolved};
ghost use Rattle.code_rules.specs.Judgement.{catches_well};
ghost use Rattle.verdict_rules.specs.World.{world_of, classes_of, exception_of};
ghost use Rattle.profile_subject.specs.Subject.{IsSubject};
ghost use Rattle.code_tests.specs.Tests.{handles_well};

use cil_code::Clause;
use cil_world::World;
use class_checks::{is_class, library_class};
use class_queries::is_sub;
use class_table::ClassTable;
use ecma_types::id::TypeId;
use member_keys::ClassId;
use plain_types::fault::NoMemory;
use profile_subject::Subject;
use std::alloc::Global;

/// A type as a class, whose row counts from 0.
fn class_of(id: TypeId) -> Option<ClassId>
    ensures { (c : Id) → id ≡ type_id c → option_map class_seen result ≡ Some c }
{
    if id.row == 0 {
        return None;
    }
    Some(ClassId {
        file: u32::from(id.file),
        row: id.row - 1,
    })
}

/// The class that a token of code names.
fn find_class(world: &World<'_>, file: u16, token: u32) -> Option<ClassId>
    requires { file < length world.now }
    ensures { option_map class_seen result ≡ type_resolved world.now file token }
{
    match world.resolve_type(file, token) {
        Ok(id) => class_of(id),
        Err(_) => None,
    }
}

/// System.Exception, in a table of fewer than 2^32 classes. A library that lacks it is refused before.
pub fn find_exception(table: &ClassTable<'_>) -> ClassId
    requires { total_of table.now < 2 ^ 32 }
    ensures { (files : List FilePart) → IsTable files table.now → class_seen result ≡ exception_of (world_of files) }
{
    match library_class(table, "Exception") {
        Some(class) => class,
        None => ClassId { file: 0, row: 0 },
    }
}

/// Whether a class is System.Object.
fn is_object(subject: &Subject<'_, '_>, class: ClassId) -> bool
    requires { IsSubject subject.now }
    ensures { result ≡ some_eq (Some (class_seen class)) (basic (classes_of (world_of subject.now.world.now)) elem.Object) }
{
    is_class(subject.setting.library.object, class)
}

/// Whether a class is System.Exception or below it.
fn is_exception(subject: &Subject<'_, '_>, exception: ClassId, class: ClassId) -> bool
    requires subject { IsSubject subject.now }
    requires exception { class_seen exception ≡ exception_of (world_of subject.now.world.now) }
    ensures { result ≡ is_sub (classes_of (world_of subject.now.world.now)) (class_seen class) (exception_of (world_of subject.now.world.now)) }
{
    is_sub(subject.setting.table, class, exception)
}

/// Whether a catch may take a class.
fn catches_class(subject: &Subject<'_, '_>, exception: ClassId, class: ClassId) -> bool
    requires subject { IsSubject subject.now }
    requires exception { class_seen exception ≡ exception_of (world_of subject.now.world.now) }
    ensures { result ≡ catches_well (classes_of (world_of subject.now.world.now)) (exception_of (world_of subject.now.world.now)) (CatchOf (Some (class_seen class))) }
{
    is_object(subject, class) || is_exception(subject, exception, class)
}

/// Whether a catch may take what a token names: System.Object, or System.Exception or a class below it.
fn catches_well(subject: &Subject<'_, '_>, exception: ClassId, file: u16, token: u32) -> bool
    requires subject { IsSubject subject.now }
    requires exception { class_seen exception ≡ exception_of (world_of subject.now.world.now) }
    requires file { file < length subject.now.world.now }
    ensures { result ≡ catches_well (classes_of (world_of subject.now.world.now)) (exception_of (world_of subject.now.world.now)) (CatchOf (type_resolved subject.now.world.now file token)) }
{
    match find_class(subject.world, file, token) {
        Some(class) => catches_class(subject, exception, class),
        None => false,
    }
}

/// Whether a clause is a finally, or a catch that may take its class.
fn handles_well(subject: &Subject<'_, '_>, exception: ClassId, file: u16, clause: &Clause) -> bool
    requires subject { IsSubject subject.now }
    requires exception { class_seen exception ≡ exception_of (world_of subject.now.world.now) }
    requires file { file < length subject.now.world.now }
    ensures { (x : FilePart) → slice_get subject.now.world.now file ≡ Some x → result ≡ handles_well (world_of subject.now.world.now) file x clause.now }
{
    if clause.kind == 0 {
        catches_well(subject, exception, file, clause.token)
    } else {
        clause.kind == 2
    }
}

/// Of each clause of a method, whether it is a finally, or a catch that takes System.Object, or System.Exception or a class below it.
pub fn read_handled(
    alloc: Global,
    subject: &Subject<'_, '_>,
    exception: ClassId,
    file: u16,
    clauses: &[Clause],
) -> Result<Vec<bool>, NoMemory>
    requires subject { IsSubject subject.now }
    requires exception { class_seen exception ≡ exception_of (world_of subject.now.world.now) }
    requires file { file < length subject.now.world.now }
    ensures { IfOk result (λ handled. (x : FilePart) → slice_get subject.now.world.now file ≡ Some x → handled.items ≡ map (handles_well (world_of subject.now.world.now) file x) clauses.now) }
{
    let mut handled = Vec::new(alloc);
    for clause in clauses {
        handled.push(handles_well(subject, exception, file, clause))?;
    }
    Ok(handled)
}
