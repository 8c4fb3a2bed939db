//! Rules on superclasses and interfaces (ECMA-335 II.22.37, II.22.23).

ghost use Rattle.std.specs.Prelude.{◌≡◌, ℕ, ◌&&◌, ◌||◌, codes, [], IfOk, Some, None};
ghost use Rattle.std.specs.Option.{option_map};
ghost use Rattle.plain_types.specs.declared.elem.Elem.TheVariants as elem;
ghost use Rattle.machine.specs.Data.{Id};
ghost use Rattle.machine.specs.Texts.{same_text};
ghost use Rattle.classes.specs.Queries.{above, basic, ends, interfaces_of, some_eq};
ghost use Rattle.member_keys.specs.Seen.{class_seen};
ghost use Rattle.class_table.specs.declared.rows.FileRows.{FileRows};
ghost use Rattle.class_table.specs.Seen.{classes_seen, row_seen};
ghost use Rattle.class_rules.specs.Rules.{may_be_extended, is_enclosed_well, is_module, superclass_fits, extends_well, may_be_implemented, under_object};
ghost use Rattle.class_queries.specs.declared.chains.Way.TheVariants as way;
ghost use Rattle.class_queries.specs.Heights.{AreHeights};
ghost use Rattle.class_queries.specs.Below.{AreBelow};
ghost use Rattle.class_checks.specs.Library.{IsLibrary};
ghost use Rattle.class_checks.specs.Setting.{IsSetting};

use crate::library::Library;
use crate::places::{is_reference_class, is_user};
use crate::setting::Setting;
use class_queries::{Heights, classes_below, ends, find_class, is_below, is_interface};
use class_table::{ClassRow, ClassTable};
use member_keys::ClassId;
use plain_types::fault::NoMemory;
use std::alloc::Global;

/// Whether a class is one that the base library may have.
pub fn is_class(known: Option<ClassId>, class: ClassId) -> bool
    ensures { result ≡ some_eq (Some (class_seen class)) (option_map class_seen known) }
{
    match known {
        Some(known) => class == known,
        None => false,
    }
}

/// Whether a class of the user's may extend it: it is neither Array nor String nor a value type.
pub fn may_be_extended(setting: &Setting<'_, '_>, class: ClassId) -> bool
    requires { IsSetting setting.now }
    ensures { result ≡ may_be_extended (classes_seen setting.now.table.now) (class_seen class) }
{
    !is_class(setting.library.array, class)
        && !is_class(setting.library.string, class)
        && is_reference_class(setting.table, class)
}

/// Whether a class has the name of the one whose fields and methods belong to no type.
fn is_module_name(row: &ClassRow<'_>) -> bool
    ensures { result ≡ (same_text row.now.namespace.now [] && same_text row.now.name.now (codes "<Module>")) }
{
    row.namespace == "" && row.name == "<Module>"
}

/// Whether it is the class of the fields and methods that belong to no type (ECMA-335 II.22.37).
fn is_module(row: &ClassRow<'_>) -> bool
    ensures { (file : ℕ) (f : FileRows) → result ≡ is_module (row_seen file f row.now) }
{
    match row.enclosing {
        Some(_) => false,
        None => is_module_name(row),
    }
}

/// Whether a class is Object.
fn is_object(setting: &Setting<'_, '_>, class: ClassId) -> bool
    requires { IsSetting setting.now }
    ensures { result ≡ some_eq (Some (class_seen class)) (basic (classes_seen setting.now.table.now) elem.Object) }
{
    is_class(setting.library.object, class)
}

/// Whether a class that is no interface may have no superclass.
fn is_top(setting: &Setting<'_, '_>, class: ClassId, row: &ClassRow<'_>) -> bool
    requires { IsSetting setting.now }
    ensures { (f : FileRows) → result ≡ (some_eq (Some (class_seen class)) (basic (classes_seen setting.now.table.now) elem.Object) || is_module (row_seen class.file f row.now)) }
{
    is_object(setting, class) || is_module(row)
}

/// Whether a class may have no superclass.
fn stands_alone(setting: &Setting<'_, '_>, class: ClassId, row: &ClassRow<'_>) -> bool
    requires { IsSetting setting.now }
    ensures { (f : FileRows) → result ≡ superclass_fits (classes_seen setting.now.table.now) (class_seen class) (row_seen class.file f row.now) None }
{
    is_top(setting, class, row) || row.is_interface
}

/// Whether a class has a superclass just where it is to have one, and one that it may extend.
fn superclass_fits(setting: &Setting<'_, '_>, class: ClassId, row: &ClassRow<'_>) -> bool
    requires { IsSetting setting.now }
    ensures { (f : FileRows) → result ≡ superclass_fits (classes_seen setting.now.table.now) (class_seen class) (row_seen class.file f row.now) (option_map class_seen row.now.superclass) }
{
    match row.superclass {
        None => stands_alone(setting, class, row),
        Some(superclass) => {
            !row.is_interface
                && find_class(setting.table, superclass).is_some()
                && !is_interface(setting.table, superclass)
                && (!is_user(class) || may_be_extended(setting, superclass))
        }
    }
}

/// Whether the chain of superclasses ends within so many classes.
fn ends_above(setting: &Setting<'_, '_>, class: ClassId, most: u64) -> bool
    requires { IsSetting setting.now }
    ensures { result ≡ ends most (above (classes_seen setting.now.table.now)) (class_seen class) }
{
    ends(setting.above, setting.table, class, most)
}

/// Whether the interfaces that an interface implements end within so many.
fn ends_in_interfaces(setting: &Setting<'_, '_>, class: ClassId, most: u64) -> bool
    requires { IsSetting setting.now }
    ensures { result ≡ ends most (interfaces_of (classes_seen setting.now.table.now)) (class_seen class) }
{
    ends(setting.interfaces, setting.table, class, most)
}

/// Whether a class extends what it may, and the chain above it ends within so many classes.
pub fn extends_well(
    setting: &Setting<'_, '_>,
    class: ClassId,
    row: &ClassRow<'_>,
    most: u64,
) -> bool
    requires { IsSetting setting.now }
    ensures { (f : FileRows) → result ≡ extends_well most (classes_seen setting.now.table.now) (class_seen class) (row_seen class.file f row.now) }
{
    superclass_fits(setting, class, row) && ends_above(setting, class, most)
}

/// Whether it is an interface, and the interfaces that it implements end within so many.
pub fn may_be_implemented(setting: &Setting<'_, '_>, class: ClassId, most: u64) -> bool
    requires { IsSetting setting.now }
    ensures { result ≡ may_be_implemented most (classes_seen setting.now.table.now) (class_seen class) }
{
    is_interface(setting.table, class) && ends_in_interfaces(setting, class, most)
}

/// Whether the types that a class is nested in end within so many (ECMA-335 II.22.32).
pub fn is_enclosed_well(setting: &Setting<'_, '_>, class: ClassId, most: u64) -> bool
    requires { IsSetting setting.now }
    ensures { result ≡ is_enclosed_well most (classes_seen setting.now.table.now) (class_seen class) }
{
    ends(setting.around, setting.table, class, most)
}

/// Whether a class is Object or below it.
pub fn under_object(setting: &Setting<'_, '_>, class: ClassId) -> bool
    requires { IsSetting setting.now }
    ensures { result ≡ under_object (classes_seen setting.now.table.now) (class_seen class) }
{
    match setting.library.object {
        Some(object) => is_below(
            setting.under,
            &setting.above.numbers,
            setting.table,
            class,
            object,
        ),
        None => false,
    }
}

/// Which classes of a table are Object or below it, by their numbers: in the time of the number of classes.
pub fn find_under(
    alloc: Global,
    table: &ClassTable<'_>,
    library: Library,
    above: &Heights,
) -> Result<Vec<Option<bool>>, NoMemory>
    requires library { IsLibrary table.now library }
    requires above { AreHeights table.now way.Above above.now }
    ensures { IfOk result (λ under. (object : Id) → basic (classes_seen table.now) elem.Object ≡ Some object → AreBelow table.now object under.items) }
{
    match library.object {
        Some(object) => classes_below(alloc, table, above, object),
        None => Ok(Vec::new(alloc)),
    }
}
