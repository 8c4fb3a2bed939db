//! Rules 27, 28 and 30 of fields (ECMA-335 II.22.15, II.23.2.4).

use crate::cases::cases_are_told;
use std::test::Fail;

const SIGNATURES: &str = "
-: a number: field | 16 | | field | 06 08
-: an array of arrays of texts: field | 16 | | field | 06 1D 1D 0E
-: an object: field | 16 | | field | 06 1C
2 27 04 1 0: no bytes: field | 16 | | field
2 27 04 1 0: a method's: field | 16 | | field | 00 00 01
2 27 04 1 0: locals: field | 16 | | field | 07 01 08
2 27 04 1 1: no type: field | 16 | | field | 06
2 27 04 1 1: void: field | 16 | | field | 06 01
2 27 04 1 1: a float: field | 16 | | field | 06 0C
2 27 04 1 1: a double: field | 16 | | field | 06 0D
2 27 04 1 1: an unmanaged pointer: field | 16 | | field | 06 0F 08
2 27 04 1 1: a managed pointer: field | 16 | | field | 06 10 08
2 27 04 1 1: a type parameter: field | 16 | | field | 06 13 00
2 27 04 1 1: an array of two dimensions: field | 16 | | field | 06 14 08 02 00 00
2 27 04 1 1: an instance of a generic type: field | 16 | | field | 06 15 12 05 01 08
2 27 04 1 1: a native number: field | 16 | | field | 06 18
2 27 04 1 1: a pointer to a function: field | 16 | | field | 06 1B 00 00 01
2 27 04 1 1: a modifier: field | 16 | | field | 06 1F 05 08
2 27 04 1 2: a byte behind: field | 16 | | field | 06 08 08
2 27 04 1 2: an array of nothing: field | 16 | | field | 06 1D
2 27 04 1 2: no token: field | 16 | | field | 06 12
2 27 04 1 2: a cut token: field | 16 | | field | 06 12 80
2 27 04 1 2: the token of an array: spec | | | | 1D 08; field | 16 | | field | 06 12 06
-: a class: field | 16 | | field | 06 12 05
-: an interface: field | 16 | | field | 06 12 19
-: String as a class: field | 16 | | field | 06 12 11
-: Array: field | 16 | | field | 06 12 1D
-: Enum: field | 16 | | field | 06 12 0D
-: the program's own class: field | 16 | | field | 06 12 08
2 27 04 1 1: a class that isn't there: field | 16 | | field | 06 12 15
2 27 04 1 2: an array of it: field | 16 | | field | 06 1D 12 15
2 27 04 1 3: an array of arrays of it: field | 16 | | field | 06 1D 1D 12 15
2 27 04 1 1: type 0: field | 16 | | field | 06 12 00
2 27 04 1 1: a type behind the last: field | 16 | | field | 06 12 0C
2 27 04 1 1: a class of another version: assembly | | | mscorlib | 04 03 01 01; reference | 23000002 | | System Object; field | 16 | | field | 06 12 29
2 27 04 1 1: a class as a value type: field | 16 | | field | 06 11 05
2 27 04 1 1: Enum as a value type: field | 16 | | field | 06 11 0D
2 27 04 1 1: Int32 as a class: field | 16 | | field | 06 12 25
-: Int32 as a value type: field | 16 | | field | 06 11 25
2 27 04 1 1: a field handle: field | 16 | | field | 06 11 21
-: an enum: type | 101 | 01000003 | A; field | 606 | | field | 06 05; type | 100001 | 01000001 | B; field | 6 | | field | 06 11 0C
2 27 04 2 1: an enum as a class: type | 101 | 01000003 | A; field | 606 | | field | 06 05; type | 100001 | 01000001 | B; field | 6 | | field | 06 12 0C
2 27 04 1 1: a data type: type | 101 | 01000002 | A; layout | 4 | 02000003; type | 100001 | 01000001 | B; field | 16 | | field | 06 11 0C
2 27 04 2 1: the first of two: field | 16 | | field | 06 08; field | 16 | | other | 06 0C; field | 16 | | third
";

#[test]
fn signatures_of_fields(rt: HostRuntime) -> Result<(), Fail> {
    cases_are_told(&rt, SIGNATURES)
}

const FIELDS: &str = "
2 28 04 1 0: an instance field of an interface: type | A1 | | A; field | 6 | | field | 06 08
-: a static field of an interface: type | A1 | | A; field | 16 | | field | 06 08
-: a constant of an interface: type | A1 | | A; field | 56 | | field | 06 08
2 28 04 1 0: a literal that isn't static, of an interface: type | A1 | | A; field | 46 | | field | 06 08
2 27 04 1 1: a signature before the interface: type | A1 | | A; field | 6 | | field | 06 0C
2 28 04 1 0: data without bytes: field | 116 | | field | 06 08
-: data of a number: field | 116 | | field | 06 08 | 01 02 03 04
-: data that isn't static: field | 106 | | field | 06 08
-: data of a literal: field | 156 | | field | 06 08 | 01 02 03 04
2 28 04 1 0: data of a text: field | 116 | | field | 06 0E | 01 02 03 04
2 28 04 1 0: data of a class: field | 116 | | field | 06 12 08 | 01 02 03 04
2 28 04 1 0: data of an array: field | 116 | | field | 06 1D 08 | 01 02 03 04
-: data of an enum: type | 101 | 01000003 | A; field | 606 | | field | 06 05; type | 100001 | 01000001 | B; field | 116 | | field | 06 11 0C | 01
-: data of a data type: type | 101 | 01000002 | A; layout | 4 | 02000003; type | 100001 | 01000001 | B; field | 116 | | field | 06 11 0C | 01 02 03 04
2 28 04 1 0: data of an array of it: type | 101 | 01000002 | A; layout | 4 | 02000003; type | 100001 | 01000001 | B; field | 116 | | field | 06 1D 11 0C | 01 02 03 04
2 28 04 1 0: data of a type that is too large: type | 101 | 01000002 | A; layout | 10000 | 02000003; type | 100001 | 01000001 | B; field | 116 | | field | 06 11 0C | 01 02 03 04
-: the first of two sizes: type | 101 | 01000002 | A; layout | 4 | 02000003; layout | 10000 | 02000003; type | 100001 | 01000001 | B; field | 116 | | field | 06 11 0C | 01 02 03 04
2 30 04 2 0: a name and a signature twice: field | 16 | | field | 06 08; field | 6 | | field | 06 08
-: a name with two signatures: field | 16 | | field | 06 08; field | 16 | | field | 06 09
2 30 04 3 0: the third as the first: field | 16 | | field | 06 08; field | 16 | | other | 06 08; field | 16 | | field | 06 08
-: in two types: field | 16 | | field | 06 08; type | 100001 | 01000001 | A; field | 16 | | field | 06 08
2 30 04 2 0: a token of two lengths: field | 16 | | field | 06 12 05; field | 16 | | field | 06 12 80 05
2 30 04 2 0: one class by two references: reference | 23000001 | | System Object; field | 16 | | field | 06 12 05; field | 16 | | field | 06 12 29
-: a built-in type by its name: field | 16 | | field | 06 0E; field | 16 | | field | 06 12 11; field | 16 | | field | 06 08; field | 16 | | field | 06 11 25; field | 16 | | field | 06 1C; field | 16 | | field | 06 12 05
";

#[test]
fn fields(rt: HostRuntime) -> Result<(), Fail> {
    cases_are_told(&rt, FIELDS)
}

const CHANGED: &str = "
2 28 04 1 0: data in the headers: field | 116 | | field | 06 08 | 01 02 03 04: is | 1D | 1 | 0 | 200
2 28 04 1 0: data behind the section: field | 116 | | field | 06 08 | 01 02 03 04: is | 1D | 1 | 0 | FFFFFFFF
-: an instance field that no type has: field | 6 | | field | 06 08: is | 02 | 1 | 4 | 2; is | 02 | 2 | 4 | 2
2 27 04 1 1: its signature: field | 6 | | field | 06 0C: is | 02 | 1 | 4 | 2; is | 02 | 2 | 4 | 2
2 28 04 1 0: its data: field | 116 | | field | 06 08: is | 02 | 1 | 4 | 2; is | 02 | 2 | 4 | 2
";

#[test]
fn changed_fields(rt: HostRuntime) -> Result<(), Fail> {
    cases_are_told(&rt, CHANGED)
}
