//! How a native ends.

use board_types::board::Known;
use board_types::value::Value;

/// The end of a native method's call.
#[derive(Clone, Copy, Debug, PartialEq, Eq)]
pub enum NativeEnd {
    /// It gives a value, or ends without one.
    Gives(Option<Value>),
    /// It prints the string of this number as a line, and for 0 an empty one.
    Prints(u32),
    /// It throws an exception of this class.
    Throws(Known),
    /// The cells of its new string don't do.
    Spent,
    /// The machine has no case for the number and these arguments.
    NoCase,
}
