//! The law of what is built and what is read.

ghost use Rattle.layout_laws.specs.ReadBack.{BuiltIsRead};

/// The bytes of each assembly that may be asked for break none of rules 1 to 13, and their tables have exactly the rows
/// asked for, in order, with their names, signatures, bodies, data and literals (ECMA-335 II.22 to II.25).
pub fn built_is_read()
    ensures { BuiltIsRead }
{}
