//! String and the builder of strings.

use crate::objects::constructor;
use crate::op::*;
use crate::shape::*;

/// String and its natives.
#[rattlefmt::skip]
pub const STRINGS: &[Item] = &[
    literal!(""),
    class!("System", "String", SEALED_CLASS, "Object"),
    field!("String.Empty", PUBLIC_CONSTANT, "Empty", String),
    method!("String..cctor()", INITIALISER, ".cctor", fixed!(Void), code!(
        1, [], Name(LDSTR, ""), Name(STSFLD, "String.Empty"), Do(RET)
    )),
    constructor!("String..ctor()", "Object..ctor()"),
    method!("String.get_Length()", GETTER, "get_Length", instance!(Int32), native!(6)),
    method!("String.get_Chars(int)", GETTER, "get_Chars", instance!(Char, Int32), native!(7)),
    method!("String.Concat(string,string)", STATIC, "Concat", fixed!(String, String, String), native!(8)),
    method!("String.Substring(int,int)", INSTANCE, "Substring", instance!(String, Int32, Int32), native!(9)),
    method!("String.Equals(string,string)", STATIC, "Equals", fixed!(Bool, String, String), native!(10)),
    method!("String.Compare(string,string)", STATIC, "Compare", fixed!(Int32, String, String), native!(11)),
    method!("String.FromChars(char[],int,int)", STATIC, "FromChars", fixed!(String, Chars, Int32, Int32), native!(12)),
    method!("String.FromChar(char)", STATIC, "FromChar", fixed!(String, Char), native!(13)),
];

/// The methods of String that are made of its natives.
#[rattlefmt::skip]
pub const TEXTS: &[Item] = &[
    method!("String.Concat(string,string,string)", STATIC, "Concat", fixed!(String, String, String, String), code!(
        2, [],
        Do(LDARG_0), Do(LDARG_1), Name(CALL, "String.Concat(string,string)"),
        Do(LDARG_2), Name(CALL, "String.Concat(string,string)"), Do(RET)
    )),
    method!("String.Concat(string,string,string,string)", STATIC, "Concat", fixed!(String, String, String, String, String), code!(
        2, [],
        Do(LDARG_0), Do(LDARG_1), Name(CALL, "String.Concat(string,string)"),
        Do(LDARG_2), Name(CALL, "String.Concat(string,string)"),
        Do(LDARG_3), Name(CALL, "String.Concat(string,string)"), Do(RET)
    )),
    method!("String.Concat(string[])", STATIC, "Concat", fixed!(String, Strings), code!(
        3, [String, Int32],
        Name(LDSTR, ""), Do(STLOC_0), Jump(BR_S, "test"),
        At("next"),
        Do(LDLOC_0), Do(LDARG_0), Do(LDLOC_1), Do(LDELEM_REF), Name(CALL, "String.Concat(string,string)"), Do(STLOC_0),
        Do(LDLOC_1), Do(LDC_I4_1), Do(ADD), Do(STLOC_1),
        At("test"),
        Do(LDLOC_1), Do(LDARG_0), Do(LDLEN), Jump(BLT_S, "next"),
        Do(LDLOC_0), Do(RET)
    )),
    // Null is no text, which Concat takes as an empty one.
    method!("String.TextOf(object)", HIDDEN_STATIC, "TextOf", fixed!(String, Object), code!(
        1, [],
        Do(LDARG_0), Jump(BRTRUE_S, "some"),
        Do(LDNULL), Do(RET),
        At("some"),
        Do(LDARG_0), Name(CALLVIRT, "Object.ToString()"), Do(RET)
    )),
    method!("String.Concat(object)", STATIC, "Concat", fixed!(String, Object), code!(
        2, [],
        Do(LDARG_0), Name(CALL, "String.TextOf(object)"), Do(LDNULL), Name(CALL, "String.Concat(string,string)"), Do(RET)
    )),
    method!("String.Concat(object,object)", STATIC, "Concat", fixed!(String, Object, Object), code!(
        2, [],
        Do(LDARG_0), Name(CALL, "String.TextOf(object)"),
        Do(LDARG_1), Name(CALL, "String.TextOf(object)"), Name(CALL, "String.Concat(string,string)"), Do(RET)
    )),
    method!("String.Concat(object,object,object)", STATIC, "Concat", fixed!(String, Object, Object, Object), code!(
        2, [],
        Do(LDARG_0), Name(CALL, "String.TextOf(object)"),
        Do(LDARG_1), Name(CALL, "String.TextOf(object)"), Name(CALL, "String.Concat(string,string)"),
        Do(LDARG_2), Name(CALL, "String.TextOf(object)"), Name(CALL, "String.Concat(string,string)"), Do(RET)
    )),
    method!("String.Concat(object[])", STATIC, "Concat", fixed!(String, Objects), code!(
        3, [String, Int32],
        Name(LDSTR, ""), Do(STLOC_0), Jump(BR_S, "test"),
        At("next"),
        Do(LDLOC_0), Do(LDARG_0), Do(LDLOC_1), Do(LDELEM_REF), Name(CALL, "String.TextOf(object)"),
        Name(CALL, "String.Concat(string,string)"), Do(STLOC_0),
        Do(LDLOC_1), Do(LDC_I4_1), Do(ADD), Do(STLOC_1),
        At("test"),
        Do(LDLOC_1), Do(LDARG_0), Do(LDLEN), Jump(BLT_S, "next"),
        Do(LDLOC_0), Do(RET)
    )),
    method!("String.Substring(int)", INSTANCE, "Substring", instance!(String, Int32), code!(
        4, [],
        Do(LDARG_0), Do(LDARG_1),
        Do(LDARG_0), Name(CALL, "String.get_Length()"), Do(LDARG_1), Do(SUB),
        Name(CALL, "String.Substring(int,int)"), Do(RET)
    )),
    method!("String.Equals(object)", OVERRIDE, "Equals", instance!(Bool, Object), code!(
        2, [],
        Do(LDARG_0), Do(LDARG_1), Name(ISINST, "String"), Name(CALL, "String.Equals(string,string)"), Do(RET)
    )),
    method!("String.op_Equality(string,string)", OPERATOR, "op_Equality", fixed!(Bool, String, String), code!(
        2, [],
        Do(LDARG_0), Do(LDARG_1), Name(CALL, "String.Equals(string,string)"), Do(RET)
    )),
    method!("String.op_Inequality(string,string)", OPERATOR, "op_Inequality", fixed!(Bool, String, String), code!(
        2, [],
        Do(LDARG_0), Do(LDARG_1), Name(CALL, "String.Equals(string,string)"), Do(LDC_I4_0), Do(CEQ), Do(RET)
    )),
    method!("String.IndexOf(char)", INSTANCE, "IndexOf", instance!(Int32, Char), code!(
        2, [Int32, Int32],
        Do(LDARG_0), Name(CALL, "String.get_Length()"), Do(STLOC_1), Jump(BR_S, "test"),
        At("next"),
        Do(LDARG_0), Do(LDLOC_0), Name(CALL, "String.get_Chars(int)"), Do(LDARG_1), Jump(BEQ_S, "found"),
        Do(LDLOC_0), Do(LDC_I4_1), Do(ADD), Do(STLOC_0),
        At("test"),
        Do(LDLOC_0), Do(LDLOC_1), Jump(BLT_S, "next"),
        Do(LDC_I4_M1), Do(RET),
        At("found"),
        Do(LDLOC_0), Do(RET)
    )),
    method!("String.ToString()", OVERRIDE, "ToString", instance!(String), code!(1, [], Do(LDARG_0), Do(RET))),
];

/// StringBuilder.
#[rattlefmt::skip]
pub const BUILDERS: &[Item] = &[
    class!("System.Text", "StringBuilder", CLASS, "Object"),
    field!("StringBuilder.chars", PRIVATE, "chars", Chars),
    field!("StringBuilder.length", PRIVATE, "length", Int32),
    method!("StringBuilder..ctor()", CONSTRUCTOR, ".ctor", instance!(Void), code!(
        2, [],
        Do(LDARG_0), Name(CALL, "Object..ctor()"),
        Do(LDARG_0), Small(LDC_I4_S, 16), Name(NEWARR, "Char"), Name(STFLD, "StringBuilder.chars"), Do(RET)
    )),
    // Makes room for so many more characters.
    method!("StringBuilder.Reserve(int)", HIDDEN_INSTANCE, "Reserve", instance!(Void, Int32), code!(
        5, [Int32, Chars],
        Do(LDARG_0), Name(LDFLD, "StringBuilder.length"), Do(LDARG_1), Do(ADD), Do(STLOC_0),
        Do(LDLOC_0), Do(LDARG_0), Name(LDFLD, "StringBuilder.chars"), Do(LDLEN), Jump(BGT_S, "grow"),
        Do(RET),
        At("grow"),
        Do(LDLOC_0), Do(LDC_I4_2), Do(MUL), Name(NEWARR, "Char"), Do(STLOC_1),
        Do(LDARG_0), Name(LDFLD, "StringBuilder.chars"), Do(LDC_I4_0), Do(LDLOC_1), Do(LDC_I4_0),
        Do(LDARG_0), Name(LDFLD, "StringBuilder.length"), Name(CALL, "Array.Copy(Array,int,Array,int,int)"),
        Do(LDARG_0), Do(LDLOC_1), Name(STFLD, "StringBuilder.chars"), Do(RET)
    )),
    method!("StringBuilder.Append(string)", INSTANCE, "Append", instance!(Class("StringBuilder"), String), code!(
        4, [Int32, Chars, Int32, Int32],
        Do(LDARG_1), Jump(BRFALSE_S, "done"),
        Do(LDARG_1), Name(CALL, "String.get_Length()"), Do(STLOC_0),
        Do(LDARG_0), Do(LDLOC_0), Name(CALL, "StringBuilder.Reserve(int)"),
        Do(LDARG_0), Name(LDFLD, "StringBuilder.chars"), Do(STLOC_1),
        Do(LDARG_0), Name(LDFLD, "StringBuilder.length"), Do(STLOC_2),
        Jump(BR_S, "test"),
        At("next"),
        Do(LDLOC_1), Do(LDLOC_2), Do(LDLOC_3), Do(ADD), Do(LDARG_1), Do(LDLOC_3), Name(CALL, "String.get_Chars(int)"), Do(STELEM_I2),
        Do(LDLOC_3), Do(LDC_I4_1), Do(ADD), Do(STLOC_3),
        At("test"),
        Do(LDLOC_3), Do(LDLOC_0), Jump(BLT_S, "next"),
        Do(LDARG_0), Do(LDLOC_2), Do(LDLOC_0), Do(ADD), Name(STFLD, "StringBuilder.length"),
        At("done"),
        Do(LDARG_0), Do(RET)
    )),
    method!("StringBuilder.Append(char)", INSTANCE, "Append", instance!(Class("StringBuilder"), Char), code!(
        3, [],
        Do(LDARG_0), Do(LDC_I4_1), Name(CALL, "StringBuilder.Reserve(int)"),
        Do(LDARG_0), Name(LDFLD, "StringBuilder.chars"), Do(LDARG_0), Name(LDFLD, "StringBuilder.length"), Do(LDARG_1), Do(STELEM_I2),
        Do(LDARG_0), Do(LDARG_0), Name(LDFLD, "StringBuilder.length"), Do(LDC_I4_1), Do(ADD), Name(STFLD, "StringBuilder.length"),
        Do(LDARG_0), Do(RET)
    )),
    method!("StringBuilder.Append(object)", INSTANCE, "Append", instance!(Class("StringBuilder"), Object), code!(
        2, [],
        Do(LDARG_0), Do(LDARG_1), Name(CALL, "String.TextOf(object)"), Name(CALL, "StringBuilder.Append(string)"), Do(RET)
    )),
    method!("StringBuilder.get_Length()", GETTER, "get_Length", instance!(Int32), code!(
        1, [], Do(LDARG_0), Name(LDFLD, "StringBuilder.length"), Do(RET)
    )),
    method!("StringBuilder.ToString()", OVERRIDE, "ToString", instance!(String), code!(
        3, [],
        Do(LDARG_0), Name(LDFLD, "StringBuilder.chars"), Do(LDC_I4_0), Do(LDARG_0), Name(LDFLD, "StringBuilder.length"),
        Name(CALL, "String.FromChars(char[],int,int)"), Do(RET)
    )),
];
