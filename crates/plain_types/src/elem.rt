//! Element types of signatures (ECMA-335 II.23.1.16).

/// What a signature names, without arrays and pointers.
#[derive(Clone, Copy, Debug, PartialEq, Eq, PartialOrd, Ord)]
pub enum Elem {
    Void,
    Bool,
    Char,
    I1,
    U1,
    I2,
    U2,
    I4,
    U4,
    I8,
    U8,
    String,
    Object,
    /// A class or an interface, by its token or row.
    Class,
    /// A value type, by its token or row.
    Value,
}
