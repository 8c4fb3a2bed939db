//! The interfaces of enumerations, and the list.

use crate::op::*;
use crate::shape::*;

/// IEnumerable and IEnumerator.
#[rattlefmt::skip]
pub const INTERFACES: &[Item] = &[
    class!("System.Collections", "IEnumerator", INTERFACE, "none"),
    method!("IEnumerator.MoveNext()", ABSTRACT, "MoveNext", instance!(Bool), bodiless!()),
    method!("IEnumerator.get_Current()", ABSTRACT_GETTER, "get_Current", instance!(Object), bodiless!()),
    method!("IEnumerator.Reset()", ABSTRACT, "Reset", instance!(Void), bodiless!()),
    class!("System.Collections", "IEnumerable", INTERFACE, "none"),
    method!("IEnumerable.GetEnumerator()", ABSTRACT, "GetEnumerator", instance!(Class("IEnumerator")), bodiless!()),
];

/// ArrayList.
#[rattlefmt::skip]
pub const LISTS: &[Item] = &[
    class!("System.Collections", "ArrayList", CLASS, "Object"),
    implements!("ArrayList", "IEnumerable"),
    field!("ArrayList.items", PRIVATE, "items", Objects),
    field!("ArrayList.count", PRIVATE, "count", Int32),
    method!("ArrayList..ctor()", CONSTRUCTOR, ".ctor", instance!(Void), code!(
        2, [],
        Do(LDARG_0), Name(CALL, "Object..ctor()"),
        Do(LDARG_0), Do(LDC_I4_4), Name(NEWARR, "Object"), Name(STFLD, "ArrayList.items"), Do(RET)
    )),
    // Twice the room.
    method!("ArrayList.Grow()", HIDDEN_INSTANCE, "Grow", instance!(Void), code!(
        5, [Objects],
        Do(LDARG_0), Name(LDFLD, "ArrayList.items"), Do(LDLEN), Do(LDC_I4_2), Do(MUL), Name(NEWARR, "Object"), Do(STLOC_0),
        Do(LDARG_0), Name(LDFLD, "ArrayList.items"), Do(LDC_I4_0), Do(LDLOC_0), Do(LDC_I4_0),
        Do(LDARG_0), Name(LDFLD, "ArrayList.count"), Name(CALL, "Array.Copy(Array,int,Array,int,int)"),
        Do(LDARG_0), Do(LDLOC_0), Name(STFLD, "ArrayList.items"), Do(RET)
    )),
    method!("ArrayList.Add(object)", INSTANCE, "Add", instance!(Int32, Object), code!(
        3, [Int32],
        Do(LDARG_0), Name(LDFLD, "ArrayList.count"), Do(STLOC_0),
        Do(LDLOC_0), Do(LDARG_0), Name(LDFLD, "ArrayList.items"), Do(LDLEN), Jump(BLT_S, "room"),
        Do(LDARG_0), Name(CALL, "ArrayList.Grow()"),
        At("room"),
        Do(LDARG_0), Name(LDFLD, "ArrayList.items"), Do(LDLOC_0), Do(LDARG_1), Do(STELEM_REF),
        Do(LDARG_0), Do(LDLOC_0), Do(LDC_I4_1), Do(ADD), Name(STFLD, "ArrayList.count"),
        Do(LDLOC_0), Do(RET)
    )),
    method!("ArrayList.get_Count()", GETTER, "get_Count", instance!(Int32), code!(
        1, [], Do(LDARG_0), Name(LDFLD, "ArrayList.count"), Do(RET)
    )),
    method!("ArrayList.get_Item(int)", GETTER, "get_Item", instance!(Object, Int32), code!(
        2, [],
        Do(LDARG_1), Do(LDARG_0), Name(LDFLD, "ArrayList.count"), Jump(BGE_UN_S, "bad"),
        Do(LDARG_0), Name(LDFLD, "ArrayList.items"), Do(LDARG_1), Do(LDELEM_REF), Do(RET),
        At("bad"),
        Name(NEWOBJ, "ArgumentOutOfRangeException..ctor()"), Do(THROW)
    )),
    method!("ArrayList.set_Item(int,object)", GETTER, "set_Item", instance!(Void, Int32, Object), code!(
        3, [],
        Do(LDARG_1), Do(LDARG_0), Name(LDFLD, "ArrayList.count"), Jump(BGE_UN_S, "bad"),
        Do(LDARG_0), Name(LDFLD, "ArrayList.items"), Do(LDARG_1), Do(LDARG_2), Do(STELEM_REF), Do(RET),
        At("bad"),
        Name(NEWOBJ, "ArgumentOutOfRangeException..ctor()"), Do(THROW)
    )),
    method!("ArrayList.RemoveAt(int)", INSTANCE, "RemoveAt", instance!(Void, Int32), code!(
        6, [],
        Do(LDARG_1), Do(LDARG_0), Name(LDFLD, "ArrayList.count"), Jump(BGE_UN_S, "bad"),
        Do(LDARG_0), Do(LDARG_0), Name(LDFLD, "ArrayList.count"), Do(LDC_I4_1), Do(SUB), Name(STFLD, "ArrayList.count"),
        Do(LDARG_0), Name(LDFLD, "ArrayList.items"), Do(LDARG_1), Do(LDC_I4_1), Do(ADD),
        Do(LDARG_0), Name(LDFLD, "ArrayList.items"), Do(LDARG_1),
        Do(LDARG_0), Name(LDFLD, "ArrayList.count"), Do(LDARG_1), Do(SUB),
        Name(CALL, "Array.Copy(Array,int,Array,int,int)"),
        Do(RET),
        At("bad"),
        Name(NEWOBJ, "ArgumentOutOfRangeException..ctor()"), Do(THROW)
    )),
    method!("ArrayList.Contains(object)", INSTANCE, "Contains", instance!(Bool, Object), code!(
        3, [Int32],
        Jump(BR_S, "test"),
        At("next"),
        Do(LDARG_1), Jump(BRTRUE_S, "compare"),
        Do(LDARG_0), Name(LDFLD, "ArrayList.items"), Do(LDLOC_0), Do(LDELEM_REF), Jump(BRFALSE_S, "found"),
        Jump(BR_S, "step"),
        At("compare"),
        Do(LDARG_1), Do(LDARG_0), Name(LDFLD, "ArrayList.items"), Do(LDLOC_0), Do(LDELEM_REF),
        Name(CALLVIRT, "Object.Equals(object)"), Jump(BRTRUE_S, "found"),
        At("step"),
        Do(LDLOC_0), Do(LDC_I4_1), Do(ADD), Do(STLOC_0),
        At("test"),
        Do(LDLOC_0), Do(LDARG_0), Name(LDFLD, "ArrayList.count"), Jump(BLT_S, "next"),
        Do(LDC_I4_0), Do(RET),
        At("found"),
        Do(LDC_I4_1), Do(RET)
    )),
    method!("ArrayList.Clear()", INSTANCE, "Clear", instance!(Void), code!(
        2, [], Do(LDARG_0), Do(LDC_I4_0), Name(STFLD, "ArrayList.count"), Do(RET)
    )),
    method!("ArrayList.GetEnumerator()", VIRTUAL, "GetEnumerator", instance!(Class("IEnumerator")), code!(
        3, [],
        Name(NEWOBJ, "ArrayListEnumerator..ctor()"),
        Do(DUP), Do(LDARG_0), Name(STFLD, "ArrayListEnumerator.list"), Do(RET)
    )),
];

/// The enumerator of an ArrayList.
#[rattlefmt::skip]
pub const ENUMERATORS: &[Item] = &[
    class!("System.Collections", "ArrayListEnumerator", HIDDEN_CLASS, "Object"),
    implements!("ArrayListEnumerator", "IEnumerator"),
    field!("ArrayListEnumerator.list", PRIVATE, "list", Class("ArrayList")),
    field!("ArrayListEnumerator.index", PRIVATE, "index", Int32),
    method!("ArrayListEnumerator..ctor()", CONSTRUCTOR, ".ctor", instance!(Void), code!(
        2, [],
        Do(LDARG_0), Name(CALL, "Object..ctor()"),
        Do(LDARG_0), Do(LDC_I4_M1), Name(STFLD, "ArrayListEnumerator.index"), Do(RET)
    )),
    // The index stays at the count once it is there.
    method!("ArrayListEnumerator.MoveNext()", VIRTUAL, "MoveNext", instance!(Bool), code!(
        3, [],
        Do(LDARG_0), Name(LDFLD, "ArrayListEnumerator.index"), Do(LDC_I4_1), Do(ADD),
        Do(LDARG_0), Name(LDFLD, "ArrayListEnumerator.list"), Name(LDFLD, "ArrayList.count"), Jump(BLT_S, "more"),
        Do(LDARG_0), Do(LDARG_0), Name(LDFLD, "ArrayListEnumerator.list"), Name(LDFLD, "ArrayList.count"),
        Name(STFLD, "ArrayListEnumerator.index"), Do(LDC_I4_0), Do(RET),
        At("more"),
        Do(LDARG_0), Do(LDARG_0), Name(LDFLD, "ArrayListEnumerator.index"), Do(LDC_I4_1), Do(ADD),
        Name(STFLD, "ArrayListEnumerator.index"), Do(LDC_I4_1), Do(RET)
    )),
    // Before the first item and behind the last one the index is a bad one.
    method!("ArrayListEnumerator.get_Current()", VIRTUAL_GETTER, "get_Current", instance!(Object), code!(
        2, [],
        Do(LDARG_0), Name(LDFLD, "ArrayListEnumerator.list"), Do(LDARG_0), Name(LDFLD, "ArrayListEnumerator.index"),
        Name(CALL, "ArrayList.get_Item(int)"), Do(RET)
    )),
    method!("ArrayListEnumerator.Reset()", VIRTUAL, "Reset", instance!(Void), code!(
        2, [], Do(LDARG_0), Do(LDC_I4_M1), Name(STFLD, "ArrayListEnumerator.index"), Do(RET)
    )),
];
