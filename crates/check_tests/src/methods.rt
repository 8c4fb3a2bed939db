//! Rules 27, 29 and 30 of methods (ECMA-335 II.22.26, II.23.2.1).

use crate::cases::cases_are_told;
use std::test::Fail;

const SIGNATURES: &str = "
-: pointers, arrays and texts: method | 96 | | A | 00 03 08 10 1D 0E 1D 1C 0E | 06 2A
2 27 06 2 0: no bytes: method | 96 | | A | | 06 2A
2 27 06 2 0: a field's: method | 96 | | A | 06 08 | 06 2A
2 27 06 2 0: generic: method | 96 | | A | 10 01 00 01 | 06 2A
2 27 06 2 0: variable arguments: method | 96 | | A | 05 00 01 | 06 2A
2 27 06 2 0: this among the parameters: method | 96 | | A | 60 01 01 08 | 06 2A
2 27 06 2 1: no count: method | 96 | | A | 00 | 06 2A
2 27 06 2 1: a count above 65,535: method | 96 | | A | 00 C0 01 00 00 01 | 06 2A
2 27 06 2 2: no result: method | 96 | | A | 00 00 | 06 2A
2 27 06 2 2: a pointer as a result: method | 96 | | A | 00 00 10 08 | 06 2A
2 27 06 2 3: an array of void: method | 96 | | A | 00 00 1D 01 | 06 2A
2 27 06 2 2: a float as a result: method | 96 | | A | 00 00 0C | 06 2A
2 27 06 2 3: a parameter of void: method | 96 | | A | 00 01 01 01 | 06 2A
2 27 06 2 4: a pointer to a pointer: method | 96 | | A | 00 01 01 10 10 08 | 06 2A
2 27 06 2 4: an array of pointers: method | 96 | | A | 00 01 01 1D 10 08 | 06 2A
2 27 06 2 3: a typed reference: method | 96 | | A | 00 01 01 16 | 06 2A
2 27 06 2 4: too few parameters: method | 96 | | A | 00 02 01 08 | 06 2A
2 27 06 2 3: too many parameters: method | 96 | | A | 00 00 01 08 | 06 2A
2 27 06 2 3: an optional part: method | 96 | | A | 00 01 01 41 08 | 06 2A
2 27 06 2 2: a result that isn't there: method | 96 | | A | 00 00 12 15 | 06 2A
2 27 06 2 3: a parameter that isn't there: method | 96 | | A | 00 01 01 12 15 | 06 2A
2 27 06 2 4: a pointer to what isn't there: method | 96 | | A | 00 01 01 10 12 15 | 06 2A
2 27 06 2 5: the second parameter isn't there: method | 96 | | A | 00 02 01 08 1D 12 15 | 06 2A
2 27 06 2 2: from left to right: method | 96 | | A | 00 01 12 15 12 15 | 06 2A
2 27 06 2 4: the form before the types: method | 96 | | A | 00 01 12 15 0C | 06 2A
2 27 06 2 3: a field handle: method | 96 | | A | 00 01 01 11 21 | 06 2A
2 27 06 2 2: a field handle as a result: method | 96 | | A | 00 00 11 21 | 06 2A
-: an enum: type | 101 | 01000003 | A; field | 606 | | field | 06 08; type | 100001 | 01000001 | B; method | 96 | | A | 00 01 11 0C 10 11 0C | 06 2A
2 27 06 2 4: an enum as a class: type | 101 | 01000003 | A; field | 606 | | field | 06 08; type | 100001 | 01000001 | B; method | 96 | | A | 00 01 11 0C 12 0C | 06 2A
2 27 06 2 3: a data type: type | 101 | 01000002 | A; layout | 4 | 02000003; type | 100001 | 01000001 | B; method | 96 | | A | 00 01 01 11 0C | 06 2A
2 27 06 2 2: the signature before the flags: method | D6 | | A | 00 00 0C | 06 2A
";

#[test]
fn signatures_of_methods(rt: HostRuntime) -> Result<(), Fail> {
    cases_are_told(&rt, SIGNATURES)
}

const METHODS: &str = "
2 29 06 2 0: native code: method | 96 | 1 | A | 00 00 01 | 06 2A
2 29 06 2 0: code of the runtime: method | 96 | 3 | A | 00 00 01
2 29 06 2 0: unmanaged: method | 96 | 4 | A | 00 00 01 | 06 2A
2 29 06 2 0: synchronized: method | 96 | 20 | A | 00 00 01 | 06 2A
2 29 06 2 0: an internal call: method | 96 | 1000 | A | 00 00 01
-: not inlined, nor optimised: method | 96 | 48 | A | 00 00 01 | 06 2A
2 29 06 2 0: of a library of the system: method | 2096 | | A | 00 00 01
2 29 06 2 0: static and virtual: method | D6 | | A | 00 00 01 | 06 2A
-: virtual: method | C6 | | A | 20 00 01 | 06 2A
-: static with this: method | 96 | | A | 20 00 01 | 06 2A
-: abstract in an abstract class: type | 81 | 01000001 | A; method | 5C6 | | A | 20 00 01
-: abstract in an interface: type | A1 | | A; method | 5C6 | | A | 20 00 01
2 29 06 2 0: abstract and not virtual: type | 81 | 01000001 | A; method | 486 | | A | 20 00 01
2 29 06 2 0: abstract in another class: method | 5C6 | | A | 20 00 01
2 29 06 2 0: abstract in an interface that isn't: type | 21 | | A; method | 5C6 | | A | 20 00 01
2 29 06 2 0: abstract with a body: type | 81 | 01000001 | A; method | 5C6 | | A | 20 00 01 | 06 2A
2 29 06 2 0: without a body: method | 96 | | A | 00 00 01
2 29 06 2 0: of an interface, without a body: type | A1 | | A; method | 1C6 | | A | 20 00 01
-: a constructor: method | 1886 | | .ctor | 20 01 01 08 | 06 2A
2 29 06 2 0: a static constructor of objects: method | 1896 | | .ctor | 00 00 01 | 06 2A
2 29 06 2 0: one whose signature alone has this: method | 1896 | | .ctor | 20 00 01 | 06 2A
2 29 06 2 0: one without this: method | 1886 | | .ctor | 00 00 01 | 06 2A
2 29 06 2 0: a virtual constructor: method | 18C6 | | .ctor | 20 00 01 | 06 2A
2 29 06 2 0: a constructor that gives a number: method | 1886 | | .ctor | 20 00 08 | 06 2A
-: a constructor of an interface: type | A1 | | A; method | 1886 | | .ctor | 20 00 01 | 06 2A
-: a constructor of a data type: type | 101 | 01000002 | A; layout | 4 | 02000003; method | 1886 | | .ctor | 20 00 01 | 06 2A
2 29 06 2 0: a constructor that isn't under Object: type | 100001 | 02000001 | A; method | 1886 | | .ctor | 20 00 01 | 06 2A
-: a method that isn't under Object: type | 100001 | 02000001 | A; method | 86 | | A | 20 00 01 | 06 2A
-: a name of other letters: method | 96 | | .Ctor | 00 00 08 | 06 2A
-: an initialiser: method | 1896 | | .cctor | 00 00 01 | 06 2A
-: an initialiser of an interface: type | A1 | | A; method | 1896 | | .cctor | 00 00 01 | 06 2A
2 29 06 2 0: an initialiser of objects: method | 1886 | | .cctor | 20 00 01 | 06 2A
2 29 06 2 0: an initialiser whose signature has this: method | 1896 | | .cctor | 20 00 01 | 06 2A
2 29 06 2 0: an initialiser with a parameter: method | 1896 | | .cctor | 00 01 01 08 | 06 2A
2 29 06 2 0: an initialiser that gives a number: method | 1896 | | .cctor | 00 00 08 | 06 2A
2 30 06 2 0: a name and a signature twice: method | 96 | | Main | 00 00 01 | 06 2A
-: with this: method | 86 | | Main | 20 00 01 | 06 2A
-: with a parameter, with a pointer, with a result: method | 96 | | Main | 00 01 01 08 | 06 2A; method | 96 | | Main | 00 01 01 10 08 | 06 2A; method | 96 | | Main | 00 00 08 | 06 2A
2 30 06 2 0: a count of two lengths: method | 96 | | Main | 00 80 00 01 | 06 2A
2 30 06 3 0: the third as the first: method | 96 | | A | 00 00 01 | 06 2A; method | 96 | | Main | 00 00 01 | 06 2A
-: in two types: type | 100001 | 02000002 | A; method | 96 | | Main | 00 00 01 | 06 2A
2 29 06 2 0: the flags before the name: method | D6 | | Main | 00 00 01 | 06 2A
2 27 04 1 1: fields before methods: method | D6 | | A | 00 00 01 | 06 2A; field | 16 | | field | 06 0C
";

#[test]
fn methods(rt: HostRuntime) -> Result<(), Fail> {
    cases_are_told(&rt, METHODS)
}

/// In the first four the methods of `<Module>` begin at the second, and so do the program's.
const CHANGED: &str = "
-: a method that no type has: method | 96 | | Main | 00 00 01 | 06 2A: is | 02 | 1 | 5 | 2; is | 02 | 2 | 5 | 2; entry | 06000002
2 27 06 1 0: its signature: method | 96 | | Main | 00 00 01 | 06 2A: is | 02 | 1 | 5 | 2; is | 02 | 2 | 5 | 2; entry | 06000002; is | 06 | 1 | 4 | 0
2 29 06 1 0: its flags: method | 96 | | Main | 00 00 01 | 06 2A: is | 02 | 1 | 5 | 2; is | 02 | 2 | 5 | 2; entry | 06000002; is | 06 | 1 | 2 | D6
2 29 06 1 0: its body: method | 96 | | Main | 00 00 01 | 06 2A: is | 02 | 1 | 5 | 2; is | 02 | 2 | 5 | 2; entry | 06000002; is | 06 | 1 | 0 | 0
2 29 06 2 0: an internal call with an address: method | 96 | | A | 00 00 01 | 06 2A: is | 06 | 2 | 1 | 1000
";

#[test]
fn changed_methods(rt: HostRuntime) -> Result<(), Fail> {
    cases_are_told(&rt, CHANGED)
}
