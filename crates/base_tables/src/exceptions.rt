//! Exception and the exceptions of the system.

use crate::objects::constructor;
use crate::op::*;
use crate::shape::*;

/// A constructor that only hands a message to that of the superclass.
macro_rules! message_constructor {
    ($key:literal, $base:literal) => {
        method!($key, CONSTRUCTOR, ".ctor", instance!(Void, String), code!(
            2, [], Do(LDARG_0), Do(LDARG_1), Name(CALL, $base), Do(RET)
        ))
    };
}

/// Exception and SystemException.
#[rattlefmt::skip]
pub const EXCEPTIONS: &[Item] = &[
    literal!(": "),
    class!("System", "Exception", CLASS, "Object"),
    field!("Exception.message", PRIVATE, "message", String),
    field!("Exception.inner", PRIVATE, "inner", Class("Exception")),
    constructor!("Exception..ctor()", "Object..ctor()"),
    method!("Exception..ctor(string)", CONSTRUCTOR, ".ctor", instance!(Void, String), code!(
        2, [],
        Do(LDARG_0), Name(CALL, "Object..ctor()"),
        Do(LDARG_0), Do(LDARG_1), Name(STFLD, "Exception.message"), Do(RET)
    )),
    method!("Exception..ctor(string,Exception)", CONSTRUCTOR, ".ctor", instance!(Void, String, Class("Exception")), code!(
        2, [],
        Do(LDARG_0), Name(CALL, "Object..ctor()"),
        Do(LDARG_0), Do(LDARG_1), Name(STFLD, "Exception.message"),
        Do(LDARG_0), Do(LDARG_2), Name(STFLD, "Exception.inner"), Do(RET)
    )),
    method!("Exception.get_Message()", VIRTUAL_GETTER, "get_Message", instance!(String), code!(
        1, [], Do(LDARG_0), Name(LDFLD, "Exception.message"), Do(RET)
    )),
    method!("Exception.get_InnerException()", GETTER, "get_InnerException", instance!(Class("Exception")), code!(
        1, [], Do(LDARG_0), Name(LDFLD, "Exception.inner"), Do(RET)
    )),
    method!("Exception.ToString()", OVERRIDE, "ToString", instance!(String), code!(
        3, [String],
        Do(LDARG_0), Name(CALLVIRT, "Exception.get_Message()"), Do(STLOC_0),
        Do(LDARG_0), Name(CALL, "Object.ToString()"),
        Do(LDLOC_0), Jump(BRFALSE_S, "plain"),
        Name(LDSTR, ": "), Do(LDLOC_0), Name(CALL, "String.Concat(string,string,string)"),
        At("plain"),
        Do(RET)
    )),
    class!("System", "SystemException", CLASS, "Exception"),
    constructor!("SystemException..ctor()", "Exception..ctor()"),
    message_constructor!("SystemException..ctor(string)", "Exception..ctor(string)"),
];

/// The exceptions of instructions.
#[rattlefmt::skip]
pub const FAULTS: &[Item] = &[
    class!("System", "ArithmeticException", CLASS, "SystemException"),
    constructor!("ArithmeticException..ctor()", "SystemException..ctor()"),
    message_constructor!("ArithmeticException..ctor(string)", "SystemException..ctor(string)"),
    class!("System", "DivideByZeroException", CLASS, "ArithmeticException"),
    constructor!("DivideByZeroException..ctor()", "ArithmeticException..ctor()"),
    message_constructor!("DivideByZeroException..ctor(string)", "ArithmeticException..ctor(string)"),
    class!("System", "OverflowException", CLASS, "ArithmeticException"),
    constructor!("OverflowException..ctor()", "ArithmeticException..ctor()"),
    message_constructor!("OverflowException..ctor(string)", "ArithmeticException..ctor(string)"),
    class!("System", "IndexOutOfRangeException", CLASS, "SystemException"),
    constructor!("IndexOutOfRangeException..ctor()", "SystemException..ctor()"),
    message_constructor!("IndexOutOfRangeException..ctor(string)", "SystemException..ctor(string)"),
    class!("System", "InvalidCastException", CLASS, "SystemException"),
    constructor!("InvalidCastException..ctor()", "SystemException..ctor()"),
    message_constructor!("InvalidCastException..ctor(string)", "SystemException..ctor(string)"),
    class!("System", "NullReferenceException", CLASS, "SystemException"),
    constructor!("NullReferenceException..ctor()", "SystemException..ctor()"),
    message_constructor!("NullReferenceException..ctor(string)", "SystemException..ctor(string)"),
    class!("System", "ArrayTypeMismatchException", CLASS, "SystemException"),
    constructor!("ArrayTypeMismatchException..ctor()", "SystemException..ctor()"),
    message_constructor!("ArrayTypeMismatchException..ctor(string)", "SystemException..ctor(string)"),
];

/// The exceptions of arguments and states.
#[rattlefmt::skip]
pub const REFUSALS: &[Item] = &[
    class!("System", "ArgumentException", CLASS, "SystemException"),
    constructor!("ArgumentException..ctor()", "SystemException..ctor()"),
    message_constructor!("ArgumentException..ctor(string)", "SystemException..ctor(string)"),
    class!("System", "ArgumentNullException", CLASS, "ArgumentException"),
    constructor!("ArgumentNullException..ctor()", "ArgumentException..ctor()"),
    message_constructor!("ArgumentNullException..ctor(string)", "ArgumentException..ctor(string)"),
    class!("System", "ArgumentOutOfRangeException", CLASS, "ArgumentException"),
    constructor!("ArgumentOutOfRangeException..ctor()", "ArgumentException..ctor()"),
    message_constructor!("ArgumentOutOfRangeException..ctor(string)", "ArgumentException..ctor(string)"),
    class!("System", "InvalidOperationException", CLASS, "SystemException"),
    constructor!("InvalidOperationException..ctor()", "SystemException..ctor()"),
    message_constructor!("InvalidOperationException..ctor(string)", "SystemException..ctor(string)"),
    class!("System", "NotSupportedException", CLASS, "SystemException"),
    constructor!("NotSupportedException..ctor()", "SystemException..ctor()"),
    message_constructor!("NotSupportedException..ctor(string)", "SystemException..ctor(string)"),
];
