//! Object, the roots of the value types, arrays, and the small types.

use crate::op::*;
use crate::shape::*;

/// A constructor that only calls that of the superclass.
macro_rules! constructor {
    ($key:literal, $base:literal) => {
        method!($key, CONSTRUCTOR, ".ctor", instance!(Void), code!(1, [], Do(LDARG_0), Name(CALL, $base), Do(RET)))
    };
}

pub(crate) use constructor;

/// Object, and the classes of value types, enums and arrays.
#[rattlefmt::skip]
pub const OBJECTS: &[Item] = &[
    class!("System", "Object", CLASS, "none"),
    method!("Object..ctor()", CONSTRUCTOR, ".ctor", instance!(Void), code!(0, [], Do(RET))),
    method!("Object.ToString()", VIRTUAL, "ToString", instance!(String), native!(1)),
    method!("Object.Equals(object)", VIRTUAL, "Equals", instance!(Bool, Object), code!(
        2, [],
        Do(LDARG_0), Do(LDARG_1), Do(CEQ), Do(RET)
    )),
    method!("Object.ReferenceEquals(object,object)", STATIC, "ReferenceEquals", fixed!(Bool, Object, Object), code!(
        2, [],
        Do(LDARG_0), Do(LDARG_1), Do(CEQ), Do(RET)
    )),
    class!("System", "ValueType", ABSTRACT_CLASS, "Object"),
    constructor!("ValueType..ctor()", "Object..ctor()"),
    class!("System", "Enum", ABSTRACT_CLASS, "ValueType"),
    constructor!("Enum..ctor()", "ValueType..ctor()"),
    method!("Enum.Equals(object)", OVERRIDE, "Equals", instance!(Bool, Object), native!(2)),
    method!("Enum.ToString()", OVERRIDE, "ToString", instance!(String), native!(3)),
    class!("System", "Array", ABSTRACT_CLASS, "Object"),
    constructor!("Array..ctor()", "Object..ctor()"),
    method!("Array.get_Length()", GETTER, "get_Length", instance!(Int32), native!(4)),
    method!("Array.Copy(Array,int,Array,int,int)", STATIC, "Copy",
        fixed!(Void, Class("Array"), Int32, Class("Array"), Int32, Int32), native!(5)),
];

/// Attributes, void, field handles, and the classes of helpers.
#[rattlefmt::skip]
pub const HELPERS: &[Item] = &[
    class!("System", "Attribute", CLASS, "Object"),
    constructor!("Attribute..ctor()", "Object..ctor()"),
    class!("System", "Void", VALUE_TYPE, "ValueType"),
    class!("System", "RuntimeFieldHandle", VALUE_TYPE, "ValueType"),
    class!("System", "IDisposable", INTERFACE, "none"),
    method!("IDisposable.Dispose()", ABSTRACT, "Dispose", instance!(Void), bodiless!()),
    class!("System.Runtime.CompilerServices", "RuntimeHelpers", CLASS, "Object"),
    constructor!("RuntimeHelpers..ctor()", "Object..ctor()"),
    method!("RuntimeHelpers.InitializeArray(Array,RuntimeFieldHandle)", STATIC, "InitializeArray",
        fixed!(Void, Class("Array"), Value("RuntimeFieldHandle")), native!(16)),
    class!("System", "Math", CLASS, "Object"),
    constructor!("Math..ctor()", "Object..ctor()"),
    method!("Math.Abs(int)", STATIC, "Abs", fixed!(Int32, Int32), code!(
        3, [],
        Do(LDARG_0), Do(DUP), Do(LDC_I4_0), Jump(BGE_S, "positive"),
        Do(NEG),
        At("positive"),
        Do(RET)
    )),
    method!("Math.Max(int,int)", STATIC, "Max", fixed!(Int32, Int32, Int32), code!(
        2, [],
        Do(LDARG_0), Do(LDARG_1), Jump(BGE_S, "first"),
        Do(LDARG_1), Do(RET),
        At("first"),
        Do(LDARG_0), Do(RET)
    )),
    method!("Math.Min(int,int)", STATIC, "Min", fixed!(Int32, Int32, Int32), code!(
        2, [],
        Do(LDARG_0), Do(LDARG_1), Jump(BLE_S, "first"),
        Do(LDARG_1), Do(RET),
        At("first"),
        Do(LDARG_0), Do(RET)
    )),
];
