//! What operators take and answer.

use board_types::board::Known;
use board_types::value::Value;

/// The end of an operator.
#[derive(Clone, Copy, Debug, PartialEq, Eq)]
pub enum OpEnd {
    /// It gives a value.
    Gives(Value),
    /// It throws an exception of this class.
    Throws(Known),
    /// The machine has no case for the opcode and these values.
    NoCase,
}

/// Two values of one kind.
#[derive(Clone, Copy, Debug, PartialEq, Eq)]
pub enum Pair {
    Ints(i32, i32),
    Longs(i64, i64),
    /// Two references, and whether they are the same.
    References(bool),
    /// Values of two kinds, or of a kind that no operator of two values takes.
    Other,
}
