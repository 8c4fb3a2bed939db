//! Lines of code.

use cil_opcodes::shape::Shape;
use member_keys::{ClassId, TypeKey};
use tiny_code::Number;

/// The targets of a branch or a switch, as distances from the end of the instruction.
#[derive(Clone, Copy, Debug)]
pub struct Targets<'a> {
    /// The place behind the instruction.
    pub next: u32,
    pub distances: Number<'a>,
}

/// A literal, by the place in its image's pool of strings at which its entry begins.
#[derive(Clone, Copy, Debug, PartialEq, Eq)]
pub struct LiteralAt {
    pub assembly: u16,
    pub place: u16,
}

/// An operand, with each token replaced by what it names.
#[derive(Clone, Copy, Debug)]
pub enum BoardOperand<'a> {
    NoOperand,
    /// A number, or the number of an argument or a local.
    Number(i64),
    /// A branch and a leave have one target.
    Targets(Targets<'a>),
    OfType(TypeKey),
    OfField(ClassId),
    OfMethod(ClassId),
    /// No operand, where no literal stands there.
    OfText(LiteralAt),
    /// A token that names nothing.
    Unresolved,
}

/// An instruction with its operand.
#[derive(Clone, Copy)]
pub struct BoardLine<'a> {
    pub shape: Shape,
    pub operand: BoardOperand<'a>,
    /// The place behind it.
    pub next: u32,
}
