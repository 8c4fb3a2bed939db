//! The primitive types, and the texts of numbers.

use crate::objects::constructor;
use crate::op::*;
use crate::shape::*;

/// A number's text, by one of the natives of `Number`.
macro_rules! to_string {
    ($key:literal, $load:expr, $widen:expr, $native:literal) => {
        method!($key, OVERRIDE, "ToString", instance!(String), code!(
            1, [], Do(LDARG_0), Do($load), Do($widen), Name(CALL, $native), Do(RET)
        ))
    };
}

/// A value is equal to a box of the same type and value.
macro_rules! equals {
    ($key:literal, $load:expr, $type:literal) => {
        method!($key, OVERRIDE, "Equals", instance!(Bool, Object), code!(
            2, [],
            Do(LDARG_1), Name(ISINST, $type), Jump(BRFALSE_S, "other"),
            Do(LDARG_0), Do($load), Do(LDARG_1), Name(UNBOX_ANY, $type), Do(CEQ), Do(RET),
            At("other"),
            Do(LDC_I4_0), Do(RET)
        ))
    };
}

/// The small primitive types.
#[rattlefmt::skip]
pub const SMALL_NUMBERS: &[Item] = &[
    literal!("True"),
    literal!("False"),
    class!("System", "Boolean", VALUE_TYPE, "ValueType"),
    method!("Boolean.ToString()", OVERRIDE, "ToString", instance!(String), code!(
        1, [],
        Do(LDARG_0), Do(LDIND_U1), Jump(BRTRUE_S, "true"),
        Name(LDSTR, "False"), Do(RET),
        At("true"),
        Name(LDSTR, "True"), Do(RET)
    )),
    equals!("Boolean.Equals(object)", LDIND_U1, "Boolean"),
    class!("System", "Char", VALUE_TYPE, "ValueType"),
    method!("Char.ToString()", OVERRIDE, "ToString", instance!(String), code!(
        1, [],
        Do(LDARG_0), Do(LDIND_U2), Name(CALL, "String.FromChar(char)"), Do(RET)
    )),
    equals!("Char.Equals(object)", LDIND_U2, "Char"),
    class!("System", "SByte", VALUE_TYPE, "ValueType"),
    to_string!("SByte.ToString()", LDIND_I1, CONV_I8, "Number.Signed(long)"),
    equals!("SByte.Equals(object)", LDIND_I1, "SByte"),
    class!("System", "Byte", VALUE_TYPE, "ValueType"),
    to_string!("Byte.ToString()", LDIND_U1, CONV_I8, "Number.Signed(long)"),
    equals!("Byte.Equals(object)", LDIND_U1, "Byte"),
    class!("System", "Int16", VALUE_TYPE, "ValueType"),
    to_string!("Int16.ToString()", LDIND_I2, CONV_I8, "Number.Signed(long)"),
    equals!("Int16.Equals(object)", LDIND_I2, "Int16"),
    class!("System", "UInt16", VALUE_TYPE, "ValueType"),
    to_string!("UInt16.ToString()", LDIND_U2, CONV_I8, "Number.Signed(long)"),
    equals!("UInt16.Equals(object)", LDIND_U2, "UInt16"),
];

/// The wide primitive types, and the texts of numbers.
#[rattlefmt::skip]
pub const WIDE_NUMBERS: &[Item] = &[
    class!("System", "Int32", VALUE_TYPE, "ValueType"),
    to_string!("Int32.ToString()", LDIND_I4, CONV_I8, "Number.Signed(long)"),
    equals!("Int32.Equals(object)", LDIND_I4, "Int32"),
    class!("System", "UInt32", VALUE_TYPE, "ValueType"),
    to_string!("UInt32.ToString()", LDIND_U4, CONV_U8, "Number.Signed(long)"),
    equals!("UInt32.Equals(object)", LDIND_U4, "UInt32"),
    class!("System", "Int64", VALUE_TYPE, "ValueType"),
    method!("Int64.ToString()", OVERRIDE, "ToString", instance!(String), code!(
        1, [],
        Do(LDARG_0), Do(LDIND_I8), Name(CALL, "Number.Signed(long)"), Do(RET)
    )),
    equals!("Int64.Equals(object)", LDIND_I8, "Int64"),
    class!("System", "UInt64", VALUE_TYPE, "ValueType"),
    method!("UInt64.ToString()", OVERRIDE, "ToString", instance!(String), code!(
        1, [],
        Do(LDARG_0), Do(LDIND_I8), Name(CALL, "Number.Unsigned(ulong)"), Do(RET)
    )),
    equals!("UInt64.Equals(object)", LDIND_I8, "UInt64"),
    class!("System", "Number", CLASS, "Object"),
    constructor!("Number..ctor()", "Object..ctor()"),
    method!("Number.Signed(long)", STATIC, "Signed", fixed!(String, Int64), native!(14)),
    method!("Number.Unsigned(ulong)", STATIC, "Unsigned", fixed!(String, UInt64), native!(15)),
];
