//! Values, and the things in a board's memory that hold them.

use crate::board::{BoardType, TypeAt};
use plain_types::elem::Elem;

/// A place in a thing of the memory: a field, an element, a unit, or what a box or a static field holds. In a frame the
/// index counts through arguments, locals, stack values, clause slots, the code place, the depth of the stack, and a
/// number that is 1 in the frame of an initialiser and else 0.
#[derive(Clone, Copy, Debug, PartialEq, Eq)]
pub struct RamPlace {
    pub thing: u32,
    pub index: u32,
    /// The type of what the place holds, without its row.
    pub elem: Elem,
}

/// What lies on the stack or in a place (ECMA-335 III.1.1).
#[derive(Clone, Copy, Debug, PartialEq, Eq)]
pub enum Value {
    /// An int32, and every smaller integer.
    Int(i32),
    Long(i64),
    /// The thing's number, and 0 for null.
    Ref(u32),
    /// A managed pointer.
    Pointer(RamPlace),
    /// A data field.
    Handle(TypeAt),
}

/// What a thing of the memory is.
#[derive(Clone, Copy, Debug, PartialEq, Eq)]
pub struct Shape {
    /// 0 an object, 1 an array, 2 a string, 3 a box, 4 a frame, 5 a static field.
    pub what: u8,
    /// The class of an object, with the element `Class`, the type of an array's elements or of what a box holds, and of a
    /// frame its method in `of`.
    pub of: BoardType,
    /// Fields, elements, units or held values, and of a frame the sum of its sizes.
    pub count: u32,
}
