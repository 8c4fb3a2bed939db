//! Types of places: what they hold, and how they are spelt (ECMA-335 I.8.7, III.1.1.1, III.1.8.1.2).

ghost use Rattle.std.specs.Prelude.{◌≡◌, true, false, IfSome, MatchOption};
ghost use Rattle.std.specs.Option.{option_map};
ghost use Rattle.machine.specs.Data.{cell_of};
ghost use Rattle.machine.specs.Numbers.{is_long as is_wide};
ghost use Rattle.machine_typed.specs.Typing.{loaded as loaded_as, is_plain as has_plain_type, is_number as has_number_type, array_of as is_array, of_type, number};
ghost use Rattle.place_types.specs.Types.{base_type, no_type, type_of, place_of, stack_of, stack_or_never};
ghost use Rattle.place_types.specs.Held.{cell_by, has_arrays, is_reference_type, FoundSpelt, IsArrayOf, array_by, unheld_type};

use crate::held::{ArrayOperand, Held};
use cil_opcodes::shape::IntegerType;
use ecma_types::stack::{PlaceType, StackType};
use plain_types::elem::Elem;

/// What lies in a place of an element without brackets.
fn held_by_elem(elem: Elem) -> Option<Held>
    ensures { option_map cell_by result ≡ cell_of (base_type elem no_type) }
{
    match elem {
        Elem::Void | Elem::Value => None,
        Elem::Bool | Elem::U1 => Some(Held::Number(IntegerType::U1)),
        Elem::Char | Elem::U2 => Some(Held::Number(IntegerType::U2)),
        Elem::I1 => Some(Held::Number(IntegerType::I1)),
        Elem::I2 => Some(Held::Number(IntegerType::I2)),
        Elem::I4 => Some(Held::Number(IntegerType::I4)),
        Elem::U4 => Some(Held::Number(IntegerType::U4)),
        Elem::I8 => Some(Held::Number(IntegerType::I8)),
        Elem::U8 => Some(Held::Number(IntegerType::U8)),
        Elem::String | Elem::Object | Elem::Class => Some(Held::Reference),
    }
}

/// What lies in a place of the type, and none in one of void or of another value type.
#[tactic(auto, using(crate::proofs::Places::cell_base, crate::proofs::Places::cell_arrays))]
pub fn held(of: &PlaceType) -> Option<Held>
    ensures { option_map cell_by result ≡ cell_of (type_of of.now) }
{
    if of.ranks > 0 {
        return Some(Held::Reference);
    }
    held_by_elem(of.elem)
}

/// Whether places of the type hold references.
pub fn is_reference(of: &PlaceType) -> bool
    ensures { result ≡ is_reference_type of.now }
{
    matches!(held(of), Some(Held::Reference))
}

/// Whether it is a primitive or an enum.
pub fn is_number(of: &PlaceType) -> bool
    ensures { result ≡ has_number_type (type_of of.now) }
{
    matches!(held(of), Some(Held::Number(_)))
}

/// Whether it is a primitive, an enum or a reference type, with arrays of these.
#[tactic(auto, using(crate::proofs::Places::plain_type))]
pub fn is_plain(of: &PlaceType) -> bool
    ensures { result ≡ has_plain_type (type_of of.now) }
{
    !matches!(of.elem, Elem::Void | Elem::Value)
}

/// The type on the stack of a number of this type.
pub fn number_type(integer: IntegerType) -> StackType
    ensures { stack_of result ≡ number (is_wide integer) }
{
    match integer {
        IntegerType::I8 | IntegerType::U8 => StackType::L,
        _ => StackType::I,
    }
}

/// The type on the stack of a value loaded from a place that holds neither a number nor a reference: a field handle, and of
/// void none.
fn unheld(elem: Elem) -> Option<StackType>
    ensures { stack_or_never result ≡ unheld_type elem }
{
    match elem {
        Elem::Value => Some(StackType::H),
        _ => None,
    }
}

/// The type on the stack of a value of the type itself, and none exactly of void.
#[tactic(auto, using(crate::proofs::Places::loaded_cell, crate::proofs::Places::loaded_unheld))]
pub fn value_type(of: &PlaceType) -> Option<StackType>
    ensures { stack_or_never result ≡ of_type (type_of of.now) }
{
    match held(of) {
        Some(Held::Number(integer)) => Some(number_type(integer)),
        Some(Held::Reference) => Some(StackType::O(*of)),
        None => unheld(of.elem),
    }
}

/// The type without its pointer.
pub fn pointee(of: &PlaceType) -> PlaceType
    ensures { type_of result ≡ type_of of.now }
{
    PlaceType {
        pointer: false,
        ..*of
    }
}

/// The type on the stack of a value loaded from a place, and none exactly of void.
pub fn loaded(of: &PlaceType) -> Option<StackType>
    ensures { stack_or_never result ≡ loaded_as (place_of of.now) }
{
    if of.pointer {
        Some(StackType::Pointer(pointee(of)))
    } else {
        value_type(of)
    }
}

/// The arrays of a type, where they can be spelt.
#[tactic(auto, using(crate::proofs::Places::arrays_more))]
pub fn array_of(element: &PlaceType) -> Option<PlaceType>
    ensures { MatchOption result (has_arrays element.now ≡ false) (λ array. (has_arrays element.now ≡ true) × IsArrayOf element.now array) }
{
    if element.ranks == u16::MAX {
        return None;
    }
    Some(PlaceType {
        pointer: false,
        ranks: element.ranks + 1,
        ..*element
    })
}

/// What an array instruction finds.
#[derive(Clone, Copy)]
pub enum ArrayFound {
    /// Null.
    Null,
    /// An array of these elements.
    Of(ArrayOperand),
}

/// The array that a type on the stack is, if it is null or one.
#[tactic(auto, using(crate::proofs::Places::no_array, crate::proofs::Places::array_element))]
pub fn array_found(of: &StackType) -> Option<ArrayFound>
    ensures found { option_map array_by result ≡ is_array (stack_of of.now) }
    ensures spelt { IfSome result FoundSpelt }
{
    match of {
        StackType::Null => Some(ArrayFound::Null),
        StackType::O(array) if array.ranks > 0 => Some(ArrayFound::Of(ArrayOperand {
            element: PlaceType {
                pointer: false,
                ranks: array.ranks - 1,
                ..*array
            },
            array: *array,
        })),
        _ => None,
    }
}
