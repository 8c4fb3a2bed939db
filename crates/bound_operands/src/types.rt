//! Types as operands.

ghost use Rattle.std.specs.Prelude.{◌≡◌, is_some};
ghost use Rattle.machine.specs.Data.{Basic, elem_cell};
ghost use Rattle.machine_typed.specs.Typing.{is_number, is_plain};
ghost use Rattle.classes.specs.Code.{OfType};
ghost use Rattle.classes.specs.Queries.{type_of, type_of_class};
ghost use Rattle.code_rules.specs.Verdict.{names_type};
ghost use Rattle.board_model.specs.Bound.{bound_classes};
ghost use Rattle.class_table.specs.Seen.{classes_seen};
ghost use Rattle.member_keys.specs.Seen.{class_seen, element_seen, type_seen};
ghost use Rattle.set_names.specs.Names.{seen_all};

use bound_answers::BoundSet;
use class_checks::is_number_class;
use class_queries::kind;
use class_table::{ClassTable, TypeKind};
use member_keys::{ClassId, ElementKey, TypeKey};
use plain_types::elem::Elem;

/// Whether places of an element hold something.
fn has_cell(elem: Elem) -> bool
    ensures { result ≡ is_some (elem_cell elem) }
{
    !matches!(elem, Elem::Void | Elem::Class | Elem::Value)
}

/// Whether places of an element hold numbers.
fn is_number_elem(elem: Elem) -> bool
    ensures { result ≡ is_number (Basic elem) }
{
    !matches!(
        elem,
        Elem::Void | Elem::String | Elem::Object | Elem::Class | Elem::Value
    )
}

/// Whether places of a class hold numbers or references.
fn is_plain_class(table: &ClassTable<'_>, class: ClassId) -> bool
    ensures { result ≡ is_plain (type_of_class (classes_seen table.now) (class_seen class)) }
{
    match kind(table, class) {
        None | Some(TypeKind::Reference) => true,
        Some(TypeKind::Builtin(elem) | TypeKind::Enumeration(elem)) => has_cell(elem),
        Some(TypeKind::OtherValue) => false,
    }
}

/// The same of a type inside its array brackets.
fn is_plain_element(table: &ClassTable<'_>, element: ElementKey) -> bool
    ensures { result ≡ is_plain (type_of (classes_seen table.now) (element_seen element)) }
{
    match element {
        ElementKey::Spelt(elem) => has_cell(elem),
        ElementKey::Class(class) | ElementKey::Value(class) => is_plain_class(table, class),
    }
}

/// Whether places of a type inside its array brackets hold numbers.
fn is_number_element(table: &ClassTable<'_>, element: ElementKey) -> bool
    ensures { result ≡ is_number (type_of (classes_seen table.now) (element_seen element)) }
{
    match element {
        ElementKey::Spelt(elem) => is_number_elem(elem),
        ElementKey::Class(class) | ElementKey::Value(class) => is_number_class(table, class),
    }
}

/// Whether a type is one of places that hold numbers or references: neither void nor a value type without a number.
pub fn is_plain_type(set: &BoundSet<'_, '_, '_, '_>, of: TypeKey) -> bool
    ensures { result ≡ names_type (bound_classes (seen_all set.now)) is_plain (OfType (type_seen of)) }
{
    is_plain_element(set.types().table(), of.element)
}

/// Whether places of a type hold numbers.
#[tactic(auto, using(crate::proofs::TypeLaws::no_ranks, crate::proofs::TypeLaws::some_ranks))]
fn holds_number(table: &ClassTable<'_>, of: TypeKey) -> bool
    ensures { result ≡ is_number (type_of (classes_seen table.now) (type_seen of)) }
{
    if of.ranks == 0 {
        is_number_element(table, of.element)
    } else {
        false
    }
}

/// Whether a type is one of places that hold numbers: a primitive or an enum.
pub fn is_number_type(set: &BoundSet<'_, '_, '_, '_>, of: TypeKey) -> bool
    ensures { result ≡ names_type (bound_classes (seen_all set.now)) is_number (OfType (type_seen of)) }
{
    holds_number(set.types().table(), of)
}
