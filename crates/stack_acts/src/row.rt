//! What an instruction takes off the stack and gives to it, as data.

use cil_opcodes::shape::{Comparison, IntegerType};
use ecma_types::stack::{PlaceType, StackType};
use place_types::held::{ArrayOperand, Held};

/// What becomes of the types below those that an instruction takes.
#[derive(Clone, Copy)]
pub enum Rest {
    Keeps,
    Drops,
    /// None may be there.
    WantsNone,
}

/// What one type has to be.
#[derive(Clone, Copy)]
pub enum Wants {
    Anything,
    /// Assignable to this type, where there is one.
    Fits(Option<StackType>),
    Reference,
    Int,
    /// A number or a reference.
    Condition,
}

/// The types that are given, where `None` is a type that no value has.
#[derive(Clone, Copy)]
pub enum Given {
    Nothing,
    Single(Option<StackType>),
    Twice(StackType),
}

/// How memory is read or written: by what lies there, or by the type that the operand names.
#[derive(Clone, Copy)]
pub enum Memory {
    Exact(Held),
    Typed(PlaceType),
}

/// How an element of an array is read or written: by what lies there, or by the type that the operand names.
#[derive(Clone, Copy)]
pub enum Element {
    Exact(Held),
    Typed(ArrayOperand),
}

/// How one type is judged, and what it gives.
#[derive(Clone, Copy)]
pub enum Single {
    Duplicate,
    /// An operator of one number.
    Unary,
    /// A number becomes one of this type.
    Convert(IntegerType),
    LoadIndirect(Memory),
    LoadLength,
}

/// How two types are judged, and what they give.
#[derive(Clone, Copy)]
pub enum Pair {
    /// An operator of two numbers of one width.
    Binary,
    /// An operator of a number and an int32.
    Shift,
    Compare(Comparison),
    BranchCompare(Comparison),
    StoreIndirect(Memory),
    LoadElement(Element),
    LoadElementAddress(ArrayOperand),
}

/// How the types taken are judged, and what they give.
#[derive(Clone, Copy)]
pub enum Act<'a> {
    /// Nothing is taken; where there is none, nothing of that kind is loaded.
    Zero(Option<Given>),
    /// One type that is wanted, and what is given.
    One(Wants, Given),
    /// Two types that are wanted, the topmost one last.
    Two(Wants, Wants),
    Single(Single),
    Pair(Pair),
    StoreElement(Element),
    /// `this`, where there is one, and the other arguments; and what is given.
    Call {
        this: Option<PlaceType>,
        params: &'a [PlaceType],
        gives: Given,
    },
    /// The class of the new object, `this` of its constructor, and the other arguments.
    New {
        class: PlaceType,
        this: PlaceType,
        params: &'a [PlaceType],
    },
}

/// An instruction's row.
#[derive(Clone, Copy)]
pub struct Row<'a> {
    pub pops: usize,
    pub pushes: u8,
    pub act: Act<'a>,
    pub rest: Rest,
}
