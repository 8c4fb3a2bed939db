//! Rule 27 of references to members, locals and array types: what is looked at, and what is passed over.

use crate::cases::cases_are_told;
use std::test::Fail;

/// Most bodies call the first reference to a member, or load the field that it names.
const MEMBERS: &str = "
-: a method: member | 01000001 | | M | 00 00 01; method | 96 | | A | 00 00 01 | 1A 28 01 00 00 0A 2A
-: a method that the class hasn't, of a class that isn't there: member | 01000005 | | M | 00 00 01; method | 96 | | A | 00 00 01 | 1A 28 01 00 00 0A 2A
-: a method without form that nothing names: member | 01000001 | | M | 00 00 0C
2 27 0A 1 2: a method without form: member | 01000001 | | M | 00 00 0C; method | 96 | | A | 00 00 01 | 1A 28 01 00 00 0A 2A
2 27 0A 1 0: no bytes: member | 01000001 | | M; method | 96 | | A | 00 00 01 | 1A 28 01 00 00 0A 2A
2 27 0A 1 0: variable arguments: member | 01000001 | | M | 05 01 01 08 41 08; method | 96 | | A | 00 00 01 | 1A 28 01 00 00 0A 2A
2 27 0A 1 0: a generic method: member | 01000001 | | M | 10 01 00 01; method | 96 | | A | 00 00 01 | 1A 28 01 00 00 0A 2A
2 27 0A 1 2: a result that isn't there: member | 01000001 | | M | 00 00 12 15; method | 96 | | A | 00 00 01 | 1A 28 01 00 00 0A 2A
2 27 0A 1 3: a parameter that isn't there: member | 01000001 | | M | 00 01 01 12 15; method | 96 | | A | 00 00 01 | 1A 28 01 00 00 0A 2A
2 27 0A 2 3: the second reference: member | 01000001 | | M | 00 00 0C; member | 01000001 | | M | 00 01 01 0C; method | 96 | | A | 00 00 01 | 1A 28 02 00 00 0A 2A
-: a field: member | 01000001 | | M | 06 08; method | 96 | | A | 00 00 01 | 1E 7E 01 00 00 0A 26 2A
2 27 0A 1 1: a field without form: member | 01000001 | | M | 06 0C; method | 96 | | A | 00 00 01 | 1E 7E 01 00 00 0A 26 2A
2 27 0A 1 2: a field's type that isn't there: member | 01000001 | | M | 06 1D 12 15; method | 96 | | A | 00 00 01 | 1E 7E 01 00 00 0A 26 2A
2 27 0A 1 1: a field that is called: member | 01000001 | | M | 06 0C; method | 96 | | A | 00 00 01 | 1A 28 01 00 00 0A 2A
2 27 0A 1 2: a method as a type: member | 01000001 | | M | 00 00 0C; method | 96 | | A | 00 00 01 | 1E 8D 01 00 00 0A 26 2A
2 27 0A 1 2: a method as a handle: member | 01000001 | | M | 00 00 0C; method | 96 | | A | 00 00 01 | 1E D0 01 00 00 0A 26 2A
-: a method as a text: member | 01000001 | | M | 00 00 0C; method | 96 | | A | 00 00 01 | 1E 72 01 00 00 0A 26 2A
-: a method as a number: member | 01000001 | | M | 00 00 0C; method | 96 | | A | 00 00 01 | 1E 20 01 00 00 0A 26 2A
2 27 0A 1 2: behind the last return: member | 01000001 | | M | 00 00 0C; method | 96 | | A | 00 00 01 | 1E 2A 28 01 00 00 0A 2A
-: behind an instruction that isn't accepted: member | 01000001 | | M | 00 00 0C; method | 96 | | A | 00 00 01 | 1E 24 28 01 00 00 0A 2A
2 27 0A 1 2: before an instruction that isn't accepted: member | 01000001 | | M | 00 00 0C; method | 96 | | A | 00 00 01 | 1E 28 01 00 00 0A 24 2A
-: a cut instruction: member | 01000001 | | M | 00 00 0C; method | 96 | | A | 00 00 01 | 12 28 01 00 00 0A
-: in a body without form: member | 01000001 | | M | 00 00 0C; method | 96 | | A | 00 00 01 | 00 28 01 00 00 0A 2A
-: a field handle of the library: reference | 23000001 | | System.Runtime.CompilerServices RuntimeHelpers; member | 0100000A | | M | 00 02 01 12 1D 11 21; method | 96 | | A | 00 00 01 | 1A 28 01 00 00 0A 2A
-: an array of handles of the library: member | 01000001 | | M | 00 01 01 1D 11 21; method | 96 | | A | 00 00 01 | 1A 28 01 00 00 0A 2A
2 27 0A 1 2: a field handle as the library's result: member | 01000001 | | M | 00 00 11 21; method | 96 | | A | 00 00 01 | 1A 28 01 00 00 0A 2A
2 27 0A 1 5: a field handle of the program: member | 02000002 | | M | 00 02 01 12 1D 11 21; method | 96 | | A | 00 00 01 | 1A 28 01 00 00 0A 2A
2 27 0A 1 3: a field handle of a class that isn't there: member | 01000005 | | M | 00 01 01 11 21; method | 96 | | A | 00 00 01 | 1A 28 01 00 00 0A 2A
2 27 0A 1 1: a data type: type | 101 | 01000002 | A; layout | 4 | 02000003; type | 100001 | 01000001 | B; member | 02000002 | | M | 06 11 0C; method | 96 | | A | 00 00 01 | 1E 7E 01 00 00 0A 26 2A
-: a method of an array: spec | | | | 1D 0C; member | 1B000001 | | M | 00 00 01; method | 96 | | A | 00 00 01 | 1A 28 01 00 00 0A 2A
2 30 06 3 0: its own table before the references: member | 01000001 | | M | 00 00 0C; method | 96 | | A | 00 00 01 | 1A 28 01 00 00 0A 2A; method | 96 | | Main | 00 00 01 | 06 2A
";

#[test]
fn references_to_members(rt: HostRuntime) -> Result<(), Fail> {
    cases_are_told(&rt, MEMBERS)
}

const LOCALS: &str = "
-: none: locals | | | | 07 00
-: of each kind: locals | | | | 07 04 08 1D 0E 12 08 11 25
2 27 11 1 0: no bytes: locals
2 27 11 1 0: a field's: locals | | | | 06 08
2 27 11 1 0: a method's: locals | | | | 00 00 01
2 27 11 1 1: no count: locals | | | | 07
2 27 11 1 2: void: locals | | | | 07 01 01
2 27 11 1 2: a pointer: locals | | | | 07 01 10 08
2 27 11 1 2: a pinned one: locals | | | | 07 01 45 0E
2 27 11 1 3: too few: locals | | | | 07 02 08
2 27 11 1 3: one that isn't there: locals | | | | 07 02 08 12 15
2 27 11 1 2: a field handle: locals | | | | 07 01 11 21
2 27 11 2 2: the second row: locals | | | | 07 00; locals | | | | 07 01 0D
";

#[test]
fn locals(rt: HostRuntime) -> Result<(), Fail> {
    cases_are_told(&rt, LOCALS)
}

/// Most bodies make an array of the first array type; two have a clause that names it, a catch and a finally.
const ARRAYS: &str = "
-: an array: spec | | | | 1D 12 08; method | 96 | | A | 00 00 01 | 22 16 8D 01 00 00 1B 26 2A
-: no array that nothing names: spec | | | | 08
2 27 1B 1 0: no array: spec | | | | 08; method | 96 | | A | 00 00 01 | 22 16 8D 01 00 00 1B 26 2A
2 27 1B 1 0: a generic instance: spec | | | | 15 12 05 01 08; method | 96 | | A | 00 00 01 | 22 16 8D 01 00 00 1B 26 2A
2 27 1B 1 1: of nothing: spec | | | | 1D; method | 96 | | A | 00 00 01 | 22 16 8D 01 00 00 1B 26 2A
2 27 1B 1 2: of what isn't there: spec | | | | 1D 1D 12 15; method | 96 | | A | 00 00 01 | 22 16 8D 01 00 00 1B 26 2A
2 27 0A 1 2: behind references: member | 01000001 | | M | 00 00 0C; spec | | | | 08; method | 96 | | A | 00 00 01 | 22 16 8D 01 00 00 1B 26 2A; method | 96 | | B | 00 00 01 | 1A 28 01 00 00 0A 2A
2 27 1B 1 0: that a catch names: spec | | | | 08; method | 96 | | A | 00 00 01 | 1B 30 01 00 07 00 00 00 00 00 00 00 00 DE 03 26 DE 00 2A 00 01 10 00 00 00 00 00 00 03 03 00 03 01 00 00 1B
-: in the place of a finally's class: spec | | | | 08; method | 96 | | A | 00 00 01 | 1B 30 01 00 07 00 00 00 00 00 00 00 00 DE 03 26 DE 00 2A 00 01 10 00 00 02 00 00 00 03 03 00 03 01 00 00 1B
2 27 11 1 3: that a signature names: spec | | | | 1D 08; locals | | | | 07 01 12 06
";

#[test]
fn array_types(rt: HostRuntime) -> Result<(), Fail> {
    cases_are_told(&rt, ARRAYS)
}
