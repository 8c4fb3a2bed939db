//! What lies in a place, and arrays by their elements.

use cil_opcodes::shape::IntegerType;
use ecma_types::stack::PlaceType;

/// What lies in a place: a number of an integer type, or a reference.
#[derive(Clone, Copy)]
pub enum Held {
    Number(IntegerType),
    Reference,
}

/// A type of elements, and the type of its arrays.
#[derive(Clone, Copy)]
pub struct ArrayOperand {
    pub element: PlaceType,
    pub array: PlaceType,
}
