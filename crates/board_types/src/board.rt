//! Rows of a deployed set of images, and what the board tells of them.

use plain_types::elem::Elem;

/// A type, method or field of a deployed set: its assembly's number and its row, both from 0.
#[derive(Clone, Copy, Debug, PartialEq, Eq, PartialOrd, Ord)]
pub struct TypeAt {
    pub assembly: u16,
    pub row: u16,
}

/// The row that names no type.
pub const NO_ROW: u16 = 0xFFFF;

/// A type as the board sees it. An enum has its number's element and its own row in `of`, a type with the element
/// `Class` or `Value` has its row there, and every other has assembly 0 and [`NO_ROW`].
#[derive(Clone, Copy, Debug, PartialEq, Eq)]
pub struct BoardType {
    /// How many array brackets stand round the element.
    pub ranks: u16,
    pub elem: Elem,
    pub of: TypeAt,
}

/// An exception clause of a method in an image (ECMA-335 II.25.4.6). Places are offsets in the method's code.
#[derive(Clone, Copy, Debug, PartialEq, Eq)]
pub struct ClauseAt {
    /// 0 a catch, 2 a finally.
    pub kind: u16,
    /// The class that a catch takes.
    pub class: TypeAt,
    pub try_start: u16,
    pub try_end: u16,
    pub start: u16,
    pub end: u16,
}

/// The exception classes that instructions and natives throw.
#[derive(Clone, Copy, Debug, PartialEq, Eq, PartialOrd, Ord)]
pub enum Known {
    NullReference,
    IndexOutOfRange,
    Overflow,
    Arithmetic,
    DivideByZero,
    InvalidCast,
    ArrayTypeMismatch,
    Argument,
    ArgumentNull,
    ArgumentOutOfRange,
}
