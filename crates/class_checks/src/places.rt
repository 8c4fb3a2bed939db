//! What classes are as the types of places.

ghost use Rattle.std.specs.Prelude.{◌≡◌, nat_eq};
ghost use Rattle.machine.specs.Data.{Basic, elem_cell, elem_number};
ghost use Rattle.machine_typed.specs.Typing.{is_number, is_refers};
ghost use Rattle.classes.specs.Queries.{type_of_class};
ghost use Rattle.member_keys.specs.Seen.{class_seen};
ghost use Rattle.class_table.specs.Seen.{classes_seen};
ghost use Rattle.class_rules.specs.Facts.{is_reference_class};
ghost use Rattle.class_rules.specs.Rules.{is_user};

use class_queries::kind;
use class_table::{ClassTable, TypeKind};
use member_keys::ClassId;
use plain_types::elem::Elem;

/// Whether a class is in a file of the user's, behind the base library's two.
pub fn is_user(class: ClassId) -> bool
    ensures { result ≡ is_user (class_seen class) }
{
    class.file >= 2
}

/// The number of an element.
fn elem_number(elem: Elem) -> u8
    ensures { result ≡ elem_number elem }
{
    match elem {
        Elem::Void => 0,
        Elem::Bool => 1,
        Elem::Char => 2,
        Elem::I1 => 3,
        Elem::U1 => 4,
        Elem::I2 => 5,
        Elem::U2 => 6,
        Elem::I4 => 7,
        Elem::U4 => 8,
        Elem::I8 => 9,
        Elem::U8 => 10,
        Elem::String => 11,
        Elem::Object => 12,
        Elem::Class => 13,
        Elem::Value => 14,
    }
}

/// Whether two elements are the same.
pub fn is_same_elem(a: Elem, b: Elem) -> bool
    ensures { result ≡ nat_eq (elem_number a) (elem_number b) }
{
    elem_number(a) == elem_number(b)
}

/// Whether places of an element hold references.
fn is_reference_elem(elem: Elem) -> bool
    ensures { result ≡ is_refers (elem_cell elem) }
{
    matches!(elem, Elem::String | Elem::Object)
}

/// Whether places of an element hold numbers.
fn is_number_elem(elem: Elem) -> bool
    ensures { result ≡ is_number (Basic elem) }
{
    !matches!(
        elem,
        Elem::Void | Elem::String | Elem::Object | Elem::Class | Elem::Value
    )
}

/// Whether places of a class hold references.
pub fn is_reference_class(table: &ClassTable<'_>, class: ClassId) -> bool
    ensures { result ≡ is_reference_class (classes_seen table.now) (class_seen class) }
{
    match kind(table, class) {
        None | Some(TypeKind::Reference) => true,
        Some(TypeKind::Builtin(elem) | TypeKind::Enumeration(elem)) => is_reference_elem(elem),
        Some(TypeKind::OtherValue) => false,
    }
}

/// Whether places of a class hold numbers.
pub fn is_number_class(table: &ClassTable<'_>, class: ClassId) -> bool
    ensures { result ≡ is_number (type_of_class (classes_seen table.now) (class_seen class)) }
{
    match kind(table, class) {
        Some(TypeKind::Builtin(elem) | TypeKind::Enumeration(elem)) => is_number_elem(elem),
        None | Some(TypeKind::Reference | TypeKind::OtherValue) => false,
    }
}
