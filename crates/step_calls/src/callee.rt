//! What a call reads of a method.

use board_types::board::TypeAt;

/// A method of a bound set, as a call reads it.
#[derive(Clone, Copy, Debug, PartialEq, Eq)]
pub struct Callee {
    pub method: TypeAt,
    /// How many arguments, with `this`, locals, stack places and exception clauses it has (ECMA-335 II.25.4).
    pub sizes: [u32; 4],
    /// Whether it hands back a value.
    pub gives: bool,
    /// Whether it has CIL; a method that is called here without has no body at all.
    pub has_code: bool,
}
