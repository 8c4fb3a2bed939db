//! The base library's types, with their superclasses.

ghost use Rattle.std.specs.Prelude.{◌≡◌, ◌==◌};
ghost use Rattle.std.specs.List.{list_all};
ghost use Rattle.std.specs.Option.{option_copied, option_map};
ghost use Rattle.class_rules.specs.Rules.{holds_some, only_if};
ghost use Rattle.verdict_rules.specs.Library as rules;
ghost use Rattle.verdict_rules.specs.World.{world_of};
ghost use Rattle.member_keys.specs.Seen.{class_seen};
ghost use Rattle.library_tests.specs.Base.{base_seen};
ghost use Rattle.library_tests.specs.Index.{IsIndexOf};
ghost use Rattle.library_tests.specs.Types.{is_found, such_row, IsLibrary, files_of, types_there};

use crate::base::{BaseType, base_types};
use crate::index::{TypeIndex, find_type};
use class_queries::find_class;
use class_table::{ClassRow, ClassTable};
use member_keys::ClassId;

/// A file of the base library, with the types of its first file, of which the superclasses are.
#[derive(Drop)]
pub struct Library<'w, 'a> {
    pub table: &'w ClassTable<'a>,
    pub own: TypeIndex<'w, 'a>,
    pub system: TypeIndex<'w, 'a>,
}

/// Both are there, and are one class.
#[tactic(auto, using(member_keys::proofs::KeyLaws::same_class))]
fn is_class(found: Option<ClassId>, class: ClassId) -> bool
    ensures { result ≡ is_found (option_map class_seen found) (class_seen class) }
{
    match found {
        Some(base) => class == base,
        None => false,
    }
}

/// The superclass is the class of System with a name, or none where the name is empty.
fn has_superclass(system: &TypeIndex<'_, '_>, name: &'static str, of: Option<ClassId>) -> bool
    requires { IsIndexOf system.now.names.now 0 system.now }
    ensures { result ≡ rules.superclass_is (world_of system.now.names.now) name.now (option_map class_seen of) }
{
    match of {
        Some(class) => is_class(find_type(system, "System", name), class),
        None => name.is_empty(),
    }
}

/// A class is as the base library has it.
fn is_such(system: &TypeIndex<'_, '_>, base: &BaseType, row: &ClassRow<'_>) -> bool
    requires { IsIndexOf system.now.names.now 0 system.now }
    ensures { result ≡ such_row (world_of system.now.names.now) (base_seen base.now) row.now }
{
    base.is_interface == row.is_interface && has_superclass(system, base.superclass, row.superclass)
}

/// The row of a type that has the names of one of the base library's.
fn find_row<'t, 'a>(library: &Library<'t, 'a>, base: &BaseType) -> Option<&'t ClassRow<'a>>
    requires library { IsLibrary library.now }
    requires file { base.now.file ≡ library.now.own.file }
    ensures { rules.has_type (world_of (files_of library.now)) (base_seen base.now) ≡ holds_some (option_copied result) (such_row (world_of (files_of library.now)) (base_seen base.now)) }
{
    let class = find_type(&library.own, base.namespace, base.name)?;
    find_class(library.table, class)
}

/// A file has a type of the base library.
fn has_type(library: &Library<'_, '_>, base: &BaseType) -> bool
    requires library { IsLibrary library.now }
    requires file { base.now.file ≡ library.now.own.file }
    ensures { result ≡ rules.has_type (world_of (files_of library.now)) (base_seen base.now) }
{
    match find_row(library, base) {
        Some(row) => is_such(&library.system, base, row),
        None => false,
    }
}

/// A file has a type of the base library, if the library has it there.
fn has_own(library: &Library<'_, '_>, base: &BaseType) -> bool
    requires { IsLibrary library.now }
    ensures { result ≡ only_if (base.now.file == library.now.own.file) (rules.has_type (world_of (files_of library.now)) (base_seen base.now)) }
{
    if base.file == library.own.file {
        has_type(library, base)
    } else {
        true
    }
}

/// A file has those of these types that the library has there.
fn has_each(library: &Library<'_, '_>, types: &[BaseType]) -> bool
    requires { IsLibrary library.now }
    ensures { result ≡ list_all (λ t. only_if ((base_seen t).file == library.now.own.file) (rules.has_type (world_of (files_of library.now)) (base_seen t))) types.now }
{
    for base in types {
        if !has_own(library, base) {
            return false;
        }
    }
    true
}

/// A file has the types that the base library has there.
pub fn has_types(library: &Library<'_, '_>) -> bool
    requires { IsLibrary library.now }
    ensures { result ≡ types_there (files_of library.now) library.now.own.file }
{
    has_each(library, &base_types())
}
