//! Rules 20, 21 and 24 to 26: rows that have to be missing, superclasses, interfaces and value types.

use crate::cases::cases_are_told;
use std::test::Fail;

const SUPERCLASSES: &str = "
-: nothing else
-: a class: type | 100001 | 01000001 | A; type | 100001 | 02000003 | B
2 24 02 3 0: a superclass that isn't there: type | 100001 | 01000005 | A
2 24 02 3 0: one of another version: assembly | | | mscorlib | 04 03 00 00; reference | 23000002 | | System Object; type | 100001 | 0100000A | A
2 24 02 3 0: one of an assembly that isn't there: assembly | | | Absent; reference | 23000002 | | System Object; type | 100001 | 0100000A | A
2 24 02 3 0: one in another namespace: reference | 23000001 | | Systems Object; type | 100001 | 0100000A | A
2 24 02 3 0: one whose scope is the module: reference | 00000001 | | Program; type | 100001 | 0100000A | A
2 24 02 3 0: one inside itself: reference | 0100000A | | Program; type | 100001 | 0100000A | A
2 24 02 3 0: two inside one another: reference | 0100000B | | Program; reference | 0100000A | | Program; type | 100001 | 0100000A | A
2 24 02 3 0: an array: spec | | | | 1D 08; type | 100001 | 1B000001 | A
2 24 02 3 0: an interface: type | 100001 | 01000006 | A
2 24 02 4 0: an interface of the file: type | A1 | | A; type | 100001 | 02000003 | B
2 24 02 3 0: none: type | 100001 | | A
2 24 02 3 0: none of a type of the base library's names: type | 100001 | | System Object
2 24 02 3 0: an interface that extends a class: type | A1 | 01000001 | A
-: an interface that extends nothing: type | A1 | | A
2 24 02 3 0: String: type | 100001 | 01000004 | A
2 24 02 3 0: Array: type | 100001 | 01000007 | A
2 24 02 3 0: a number: type | 100001 | 01000009 | A
2 24 02 3 0: a value type of the library: type | 100001 | 01000008 | A
2 24 02 4 0: an enum: type | 101 | 01000003 | A; field | 606 | | field | 06 08; type | 100001 | 02000003 | B
2 24 02 4 0: a data type: type | 101 | 01000002 | A; layout | 4 | 02000003; type | 100001 | 02000003 | B
-: <Module>: type | 100001 | 02000001 | A
2 24 02 3 0: <Module> in a namespace extends nothing: type | 1 | | Ns <Module>
2 24 02 3 0: a nested <Module> extends nothing: type | 2 | | <Module>; nested | 02000003 | 02000002
2 24 02 3 0: itself: type | 100001 | 02000003 | A
2 24 02 3 0: a circle of two: type | 100001 | 02000004 | A; type | 100001 | 02000003 | B
2 24 02 3 0: a circle of three: type | 100001 | 02000004 | A; type | 100001 | 02000005 | B; type | 100001 | 02000003 | C
2 24 02 3 0: a way into a circle: type | 100001 | 02000004 | A; type | 100001 | 02000004 | B
2 24 02 4 0: a circle behind a class: type | 100001 | 01000001 | A; type | 100001 | 02000005 | B; type | 100001 | 02000004 | C
-: a class of the file that comes later: type | 100001 | 02000004 | A; type | 100001 | 01000001 | B
-: a class of the library: reference | 23000001 | | System Exception; type | 100001 | 0100000A | A
2 24 02 3 0: the table's first row: type | 100001 | 01000005 | A; type | 100001 | 01000001 | Program
2 24 02 3 0: the row's lower rule: type | 100001 | 01000005 | Program
";

#[test]
fn superclasses(rt: HostRuntime) -> Result<(), Fail> {
    cases_are_told(&rt, SUPERCLASSES)
}

const INTERFACES: &str = "
-: an interface: interface | 02000002 | 01000006
-: the same twice: interface | 02000002 | 01000006; interface | 02000002 | 01000006
2 25 09 1 0: a class: interface | 02000002 | 01000001
2 25 09 1 0: itself, a class: interface | 02000002 | 02000002
2 25 09 1 0: one that isn't there: interface | 02000002 | 01000005
2 25 09 1 0: an array: spec | | | | 1D 08; interface | 02000002 | 1B000001
2 25 09 2 0: the second row: interface | 02000002 | 01000006; interface | 02000002 | 01000004
2 25 09 1 0: a circle of one: type | A1 | | A; interface | 02000003 | 02000003
2 25 09 1 0: a circle of two: type | A1 | | A; type | A1 | | B; interface | 02000003 | 02000004; interface | 02000004 | 02000003
2 25 09 2 0: a way into a circle: type | A1 | | A; type | A1 | | B; interface | 02000002 | 01000006; interface | 02000003 | 02000004; interface | 02000004 | 02000004
2 25 09 1 0: a class into a circle: type | A1 | | A; interface | 02000002 | 02000003; interface | 02000003 | 02000003
-: two ways to one interface: type | A1 | | A; type | A1 | | B; interface | 02000003 | 01000006; interface | 02000004 | 01000006; interface | 02000004 | 02000003; interface | 02000002 | 02000004
";

#[test]
fn interfaces(rt: HostRuntime) -> Result<(), Fail> {
    cases_are_told(&rt, INTERFACES)
}

const VALUES: &str = "
2 26 02 3 0: a struct: type | 109 | 01000002 | A; field | 6 | | field | 06 08
2 26 02 3 0: a struct without fields: type | 109 | 01000002 | A
2 26 02 3 0: a struct with a size: type | 109 | 01000002 | A; field | 6 | | field | 06 08; layout | 4 | 02000003
-: a data type: type | 109 | 01000002 | A; layout | 4 | 02000003
2 26 02 3 0: a data type with a static field: type | 109 | 01000002 | A; field | 16 | | field | 06 08; layout | 4 | 02000003
-: an enum: type | 101 | 01000003 | A; field | 606 | | field | 06 08; field | 8056 | | One | 06 11 0C
-: an enum of longs: type | 101 | 01000003 | A; field | 606 | | field | 06 0B
2 26 02 3 0: an enum without a number: type | 101 | 01000003 | A
2 26 02 3 0: an enum with constants alone: type | 101 | 01000003 | A; field | 8056 | | field | 06 08
2 26 02 3 0: an enum of two numbers: type | 101 | 01000003 | A; field | 606 | | field | 06 08; field | 606 | | other | 06 08
2 26 02 3 0: an enum of bool: type | 101 | 01000003 | A; field | 606 | | field | 06 02
2 26 02 3 0: an enum of char: type | 101 | 01000003 | A; field | 606 | | field | 06 03
2 26 02 3 0: an enum of string: type | 101 | 01000003 | A; field | 606 | | field | 06 0E
2 26 02 3 0: an enum of Int32 by name: type | 101 | 01000003 | A; field | 606 | | field | 06 11 25
2 26 02 3 0: explicit layout: type | 100011 | 01000001 | A; field | 6 | | field | 06 08
-: explicit layout of static fields: type | 100011 | 01000001 | A; field | 16 | | field | 06 08
-: sequential layout: type | 100009 | 01000001 | A; field | 6 | | field | 06 08
2 26 02 3 0: a value type before a superclass that isn't there: type | 101 | 01000003 | A; type | 100001 | 01000005 | B
2 24 02 3 0: a superclass that isn't there before a value type: type | 100001 | 01000005 | A; type | 101 | 01000003 | B
";

#[test]
fn value_types(rt: HostRuntime) -> Result<(), Fail> {
    cases_are_told(&rt, VALUES)
}

const NAMES: &str = "
2 26 02 3 0: a name that an earlier type has: type | 100001 | 01000001 | Program
-: the name in another namespace: type | 1 | 01000001 | Ns Program
-: a name of other letters: type | 100001 | 01000001 | program
-: a name of the library: type | 1 | 01000001 | System Object
2 26 02 3 0: a second <Module>: type | 0 | | <Module>
-: the name inside the type: type | 2 | 01000001 | Program; nested | 02000003 | 02000002
2 26 02 4 0: twice inside one type: type | 2 | 01000001 | A; type | 2 | 01000001 | A; nested | 02000003 | 02000002; nested | 02000004 | 02000002
-: inside two types: type | 2 | 01000001 | A; type | 2 | 01000001 | A; nested | 02000003 | 02000002; nested | 02000004 | 02000003
2 26 02 3 0: inside itself: type | 2 | 01000001 | A; nested | 02000003 | 02000003
2 26 02 3 0: two inside one another: type | 2 | 01000001 | A; type | 2 | 01000001 | B; nested | 02000003 | 02000004; nested | 02000004 | 02000003
2 26 02 3 0: a way into a circle: type | 2 | 01000001 | A; type | 2 | 01000001 | B; nested | 02000003 | 02000004; nested | 02000004 | 02000004
-: the first of two rows: type | 2 | 01000001 | A; nested | 02000003 | 02000002; nested | 02000003 | 02000003
2 26 02 3 0: the first of two rows, a circle: type | 2 | 01000001 | A; nested | 02000003 | 02000003; nested | 02000003 | 02000002
";

#[test]
fn names_of_types(rt: HostRuntime) -> Result<(), Fail> {
    cases_are_told(&rt, NAMES)
}

/// Three signatures of no locals have the six bytes of one row of other tables, and a row on nesting the four of others.
const TABLES: &str = "
2 21 19 1 0: an overriding: locals | | | | 07 00; locals | | | | 07 00; locals | | | | 07 00: retable | 11 | 19 | 1
2 20 2A 1 0: a generic parameter: nested | 02000002 | 02000002; nested | 02000002 | 02000002: retable | 29 | 2A | 1
2 20 2B 1 0: an instance of a method: nested | 02000002 | 02000002: retable | 29 | 2B | 1
2 20 2C 1 0: a constraint: nested | 02000002 | 02000002: retable | 29 | 2C | 1
2 21 19 1 0: an overriding and a constraint: locals | | | | 07 00; locals | | | | 07 00; locals | | | | 07 00; nested | 02000002 | 02000002: retable | 11 | 19 | 1; retable | 29 | 2C | 1
2 24 02 3 0: a constraint and a class: type | 100001 | 01000005 | A; nested | 02000002 | 02000002: retable | 29 | 2C | 1
2 25 09 1 0: an overriding and an interface: interface | 02000002 | 01000005; locals | | | | 07 00; locals | | | | 07 00; locals | | | | 07 00: retable | 11 | 19 | 1
-: an attribute whose class isn't there: member | 01000005 | | .ctor | 20 00 01: retable | 0A | 0C | 1
-: a constant: member | 01000005 | | .ctor | 20 00 01: retable | 0A | 0B | 1
-: an event: locals | | | | 07 00; locals | | | | 07 00; locals | | | | 07 00: retable | 11 | 14 | 1
-: a property: locals | | | | 07 00; locals | | | | 07 00; locals | | | | 07 00: retable | 11 | 17 | 1
";

#[test]
fn tables_that_have_to_be_missing(rt: HostRuntime) -> Result<(), Fail> {
    cases_are_told(&rt, TABLES)
}
