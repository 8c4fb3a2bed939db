//! Types of places and of the evaluation stack (ECMA-335 I.8.7, III.1.8.1.2).

use crate::id::TypeId;
use plain_types::elem::Elem;

/// The type of a local, argument, field, element or result.
#[derive(Clone, Copy, Debug, PartialEq, Eq)]
pub struct PlaceType {
    /// A managed pointer to the type that the other fields name.
    pub pointer: bool,
    /// How many array brackets stand round the element.
    pub ranks: u16,
    pub elem: Elem,
    /// The type named where the element is `Class` or `Value`; an enum has its number's element and its own type here.
    pub of: TypeId,
}

/// The type of a value on the evaluation stack.
#[derive(Clone, Copy, Debug, PartialEq, Eq)]
pub enum StackType {
    /// int32, and all smaller integers, bool and char.
    I,
    /// int64.
    L,
    /// The null reference.
    Null,
    /// An object reference; of a value type, a box of it.
    O(PlaceType),
    /// A managed pointer.
    Pointer(PlaceType),
    /// A field handle.
    H,
}
