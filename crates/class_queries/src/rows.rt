//! The row of a class, and what it says.

ghost use Rattle.std.specs.Prelude.{◌≡◌, map};
ghost use Rattle.std.specs.Option.{option_copied, option_map};
ghost use Rattle.classes.specs.Queries.{superclass_of, enclosing_of, interfaces_of, is_interface, kind_of};
ghost use Rattle.member_keys.specs.Seen.{class_seen};
ghost use Rattle.class_table.specs.Seen.{classes_seen, kind_seen};
ghost use Rattle.class_queries.specs.Found.{found_row};

use class_table::{ClassRow, ClassTable, TypeKind};
use member_keys::ClassId;

/// The row of a class; `None` where the table has no such class.
#[inline]
pub fn find_class<'t, 'a>(table: &'t ClassTable<'a>, class: ClassId) -> Option<&'t ClassRow<'a>>
    ensures { option_copied result ≡ found_row table.now (class_seen class) }
{
    let file = table.files.get(class.file as usize)?;
    file.classes.get(class.row as usize)
}

/// The superclass of a class, if it has one (ECMA-335 II.22.37).
#[tactic(auto, using(crate::proofs::RowLaws::superclass_found))]
pub fn superclass(table: &ClassTable<'_>, class: ClassId) -> Option<ClassId>
    ensures { option_map class_seen result ≡ superclass_of (classes_seen table.now) (class_seen class) }
{
    find_class(table, class)?.superclass
}

/// The type that a class is nested in, if there is one (ECMA-335 II.22.32).
#[tactic(auto, using(crate::proofs::RowLaws::enclosing_found))]
pub fn enclosing(table: &ClassTable<'_>, class: ClassId) -> Option<ClassId>
    ensures { option_map class_seen result ≡ enclosing_of (classes_seen table.now) (class_seen class) }
{
    let row = find_class(table, class)?.enclosing?;
    Some(ClassId {
        file: class.file,
        row,
    })
}

/// The interfaces that a class's own rows name (ECMA-335 II.22.23).
#[tactic(auto, using(crate::proofs::RowLaws::interfaces_found))]
pub fn interfaces<'t>(table: &'t ClassTable<'_>, class: ClassId) -> &'t [ClassId]
    ensures { map class_seen result.now ≡ interfaces_of (classes_seen table.now) (class_seen class) }
{
    match find_class(table, class) {
        Some(row) => &row.interfaces,
        None => &[],
    }
}

/// Whether the class is an interface; no class is none.
#[tactic(auto, using(crate::proofs::RowLaws::interface_found))]
pub fn is_interface(table: &ClassTable<'_>, class: ClassId) -> bool
    ensures { result ≡ is_interface (classes_seen table.now) (class_seen class) }
{
    match find_class(table, class) {
        Some(row) => row.is_interface,
        None => false,
    }
}

/// What the class is as the type of a place.
#[tactic(auto, using(crate::proofs::RowLaws::kind_found))]
pub fn kind(table: &ClassTable<'_>, class: ClassId) -> Option<TypeKind>
    ensures { option_map kind_seen result ≡ kind_of (classes_seen table.now) (class_seen class) }
{
    Some(find_class(table, class)?.kind)
}
