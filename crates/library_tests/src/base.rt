//! The types of the base library, as data.

ghost use Rattle.std.specs.Prelude.{◌≡◌, map};
ghost use Rattle.verdict_rules.specs.Library.{base_types};
ghost use Rattle.library_tests.specs.Base.{base_seen};

/// A type that the base library has, nested in none.
#[derive(Drop)]
pub struct BaseType {
    /// The file, from 0.
    pub file: u16,
    pub namespace: &'static str,
    pub name: &'static str,
    /// A class of System; empty for none.
    pub superclass: &'static str,
    pub is_interface: bool,
}

macro_rules! base_type {
    ($file:literal, $namespace:literal, $name:literal, $superclass:literal, $is_interface:literal) => {
        BaseType {
            file: $file,
            namespace: $namespace,
            name: $name,
            superclass: $superclass,
            is_interface: $is_interface,
        }
    };
}

/// The types of the base library.
#[rattlefmt::skip]
pub fn base_types() -> [BaseType; 41]
    ensures { map base_seen result ≡ base_types }
{
    [
        base_type!(0, "System", "Object", "", false),
        base_type!(0, "System", "ValueType", "Object", false),
        base_type!(0, "System", "Enum", "ValueType", false),
        base_type!(0, "System", "Boolean", "ValueType", false),
        base_type!(0, "System", "Char", "ValueType", false),
        base_type!(0, "System", "SByte", "ValueType", false),
        base_type!(0, "System", "Byte", "ValueType", false),
        base_type!(0, "System", "Int16", "ValueType", false),
        base_type!(0, "System", "UInt16", "ValueType", false),
        base_type!(0, "System", "Int32", "ValueType", false),
        base_type!(0, "System", "UInt32", "ValueType", false),
        base_type!(0, "System", "Int64", "ValueType", false),
        base_type!(0, "System", "UInt64", "ValueType", false),
        base_type!(0, "System", "Array", "Object", false),
        base_type!(0, "System", "String", "Object", false),
        base_type!(0, "System", "Number", "Object", false),
        base_type!(0, "System", "Exception", "Object", false),
        base_type!(0, "System", "SystemException", "Exception", false),
        base_type!(0, "System", "ArithmeticException", "SystemException", false),
        base_type!(0, "System", "DivideByZeroException", "ArithmeticException", false),
        base_type!(0, "System", "OverflowException", "ArithmeticException", false),
        base_type!(0, "System", "IndexOutOfRangeException", "SystemException", false),
        base_type!(0, "System", "InvalidCastException", "SystemException", false),
        base_type!(0, "System", "NullReferenceException", "SystemException", false),
        base_type!(0, "System", "ArrayTypeMismatchException", "SystemException", false),
        base_type!(0, "System", "ArgumentException", "SystemException", false),
        base_type!(0, "System", "ArgumentNullException", "ArgumentException", false),
        base_type!(0, "System", "ArgumentOutOfRangeException", "ArgumentException", false),
        base_type!(0, "System", "InvalidOperationException", "SystemException", false),
        base_type!(0, "System", "NotSupportedException", "SystemException", false),
        base_type!(0, "System", "Attribute", "Object", false),
        base_type!(0, "System", "RuntimeFieldHandle", "ValueType", false),
        base_type!(0, "System", "Void", "ValueType", false),
        base_type!(0, "System", "IDisposable", "", true),
        base_type!(0, "System.Runtime.CompilerServices", "RuntimeHelpers", "Object", false),
        base_type!(0, "System", "Math", "Object", false),
        base_type!(0, "System.Collections", "IEnumerable", "", true),
        base_type!(0, "System.Collections", "IEnumerator", "", true),
        base_type!(0, "System.Collections", "ArrayList", "Object", false),
        base_type!(0, "System.Text", "StringBuilder", "Object", false),
        base_type!(1, "Microsoft.SPOT", "Debug", "Object", false),
    ]
}
