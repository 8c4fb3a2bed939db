//! Types of places, with rows from 1.

ghost use Rattle.std.specs.Prelude.{◌≡◌, ◌++◌, false, not, IfOk, OnOk, map};
ghost use Rattle.std.specs.Option.{option_map};
ghost use Rattle.plain_types.specs.declared.elem.Elem.TheVariants as elem;
ghost use Rattle.machine.specs.Data.{Basic};
ghost use Rattle.classes.specs.Queries.{this_of, type_of, type_of_class};
ghost use Rattle.classes.specs.Queries.{place_of as place_in};
ghost use Rattle.member_keys.specs.Seen.{class_seen, element_seen, place_seen, type_seen};
ghost use Rattle.class_table.specs.Seen.{classes_seen, kind_seen};
ghost use Rattle.class_order.specs.Types.{base_seen};
ghost use Rattle.ecma_effects.specs.Known.{elem_of};
ghost use Rattle.method_facts.specs.Places.{class_to, place_to, result_to, row_to, type_to};

use class_checks::is_reference_class;
use class_order::{BaseType, type_of_class};
use class_queries::kind;
use class_table::{ClassTable, TypeKind};
use ecma_types::id::TypeId;
use ecma_types::stack::PlaceType;
use member_keys::{ClassId, ElementKey, PlaceKey, TypeKey};
use plain_types::elem::Elem;
use plain_types::fault::NoMemory;

/// The number behind the last file that a [`TypeId`] has room for.
const FILES: u32 = 65536;

/// The row of no type.
const NO_TYPE: TypeId = TypeId { file: 0, row: 0 };

/// The row of a class, which counts from 1. There is no room for those of more than 65,536 files.
fn class_row(class: ClassId) -> Result<TypeId, NoMemory>
    ensures { IfOk result (λ of. of ≡ row_to (class_seen class)) }
{
    if class.file >= FILES || class.row == u32::MAX {
        return Err(NoMemory);
    }
    Ok(TypeId {
        file: class.file as u16,
        row: class.row + 1,
    })
}

/// A place of an element and the row beside it.
fn place(elem: Elem, of: TypeId) -> PlaceType
    ensures { result ≡ record { pointer = false; ranks = 0; elem = elem; of = of } }
{
    PlaceType {
        pointer: false,
        ranks: 0,
        elem,
        of,
    }
}

/// The element of a class as a place spells it.
fn class_elem(kind: Option<TypeKind>) -> Elem
    ensures { result ≡ elem_of (option_map kind_seen kind) }
{
    match kind {
        Some(TypeKind::Builtin(elem) | TypeKind::Enumeration(elem)) => elem,
        Some(TypeKind::OtherValue) => Elem::Value,
        Some(TypeKind::Reference) | None => Elem::Class,
    }
}

/// A class as the type of a place, with its row also where it has an element of its own.
///
/// # Errors
///
/// [`NoMemory`] where a [`TypeId`] has no room for the class; a world has none such.
pub fn class_place(table: &ClassTable<'_>, class: ClassId) -> Result<PlaceType, NoMemory>
    ensures { IfOk result (λ place. place ≡ class_to (classes_seen table.now) (class_seen class)) }
{
    let elem = class_elem(kind(table, class));
    Ok(place(elem, class_row(class)?))
}

/// The place of a type without brackets.
fn base_type(of: BaseType) -> Result<PlaceType, NoMemory>
    ensures { IfOk result (λ place. place ≡ type_to (base_seen of)) }
{
    match of {
        BaseType::Basic(elem) => Ok(place(elem, NO_TYPE)),
        BaseType::EnumOf(elem, class) => Ok(place(elem, class_row(class)?)),
        BaseType::ClassOf(class) => Ok(place(Elem::Class, class_row(class)?)),
        BaseType::ValueOf(class) => Ok(place(Elem::Value, class_row(class)?)),
    }
}

/// The type of the places of a class.
fn class_type(table: &ClassTable<'_>, class: ClassId) -> Result<PlaceType, NoMemory>
    ensures { IfOk result (λ place. place ≡ type_to (type_of_class (classes_seen table.now) (class_seen class))) }
{
    base_type(type_of_class(table, class))
}

/// The type inside the brackets.
fn element_type(table: &ClassTable<'_>, element: ElementKey) -> Result<PlaceType, NoMemory>
    ensures { IfOk result (λ place. place ≡ type_to (type_of (classes_seen table.now) (element_seen element))) }
{
    match element {
        ElementKey::Spelt(elem) => base_type(BaseType::Basic(elem)),
        ElementKey::Class(class) | ElementKey::Value(class) => class_type(table, class),
    }
}

/// The type of a place that a signature names: an enum has its number's element and its own row, a primitive, String and Object have
/// their element alone (ECMA-335 II.23.2.12).
///
/// # Errors
///
/// [`NoMemory`] where a [`TypeId`] has no room for a class; a world has none such.
#[tactic(auto, using(crate::proofs::PlaceLaws::in_brackets))]
pub fn place_type(table: &ClassTable<'_>, key: TypeKey) -> Result<PlaceType, NoMemory>
    ensures { IfOk result (λ place. place ≡ type_to (type_of (classes_seen table.now) (type_seen key))) }
{
    let element = element_type(table, key.element)?;
    Ok(PlaceType {
        ranks: key.ranks,
        ..element
    })
}

/// The type of a parameter (ECMA-335 II.23.2.10).
#[tactic(auto, using(crate::proofs::PlaceLaws::pointed))]
fn parameter_type(table: &ClassTable<'_>, key: PlaceKey) -> Result<PlaceType, NoMemory>
    ensures { IfOk result (λ place. place ≡ place_to (place_in (classes_seen table.now) (place_seen key))) }
{
    let of = place_type(table, key.of)?;
    Ok(PlaceType {
        pointer: key.by_ref,
        ..of
    })
}

/// Adds the types of parameters (ECMA-335 II.23.2.10).
///
/// # Errors
///
/// [`NoMemory`] where the host has none left, and where a [`TypeId`] has no room for a class, which a world has not.
pub fn place_types(
    table: &ClassTable<'_>,
    keys: &[PlaceKey],
    places: &mut Vec<PlaceType>,
) -> Result<(), NoMemory>
    ensures { OnOk result (places.new.items ≡ places.old.items ++ map place_to (map (place_in (classes_seen table.now)) (map place_seen keys.now))) }
{
    for key in keys {
        places.push(parameter_type(table, *key)?)?;
    }
    Ok(())
}

/// The type of a result: void has the element Void (ECMA-335 II.23.2.11).
///
/// # Errors
///
/// [`NoMemory`] where a [`TypeId`] has no room for a class; a world has none such.
pub fn result_type(table: &ClassTable<'_>, returns: Option<TypeKey>) -> Result<PlaceType, NoMemory>
    ensures { IfOk result (λ place. place ≡ result_to (option_map (type_of (classes_seen table.now)) (option_map type_seen returns))) }
{
    match returns {
        Some(key) => place_type(table, key),
        None => base_type(BaseType::Basic(Elem::Void)),
    }
}

/// The type of `this` in a method of a class: a reference, or of a value type a pointer (ECMA-335 I.8.6.1.5).
///
/// # Errors
///
/// [`NoMemory`] where a [`TypeId`] has no room for the class; a world has none such.
#[tactic(auto, using(crate::proofs::PlaceLaws::this_place))]
pub fn this_type(table: &ClassTable<'_>, class: ClassId) -> Result<PlaceType, NoMemory>
    ensures { IfOk result (λ place. place ≡ place_to (this_of (classes_seen table.now) (class_seen class))) }
{
    let of = class_type(table, class)?;
    let is_reference = is_reference_class(table, class);
    Ok(PlaceType {
        pointer: !is_reference,
        ..of
    })
}
