//! Rule 53: the types of values (ECMA-335 III.1.5, III.3, III.4).

use crate::told::methods_are_told;
use std::test::Fail;

/// Numbers, comparisons and conditions (III.1.5).
const ARITHMETIC: &str = "
- | add of two longs | 00 00 01 | 1A 16 6A 25 58 26 2A
53 3 | add of long and int | 00 00 01 | 1A 16 6A 16 58 26 2A
- | sub of two longs | 00 00 01 | 1A 16 6A 25 59 26 2A
53 3 | sub of long and int | 00 00 01 | 1A 16 6A 16 59 26 2A
- | mul of two longs | 00 00 01 | 1A 16 6A 25 5A 26 2A
53 3 | mul of long and int | 00 00 01 | 1A 16 6A 16 5A 26 2A
- | div of two longs | 00 00 01 | 1A 16 6A 25 5B 26 2A
53 3 | div of long and int | 00 00 01 | 1A 16 6A 16 5B 26 2A
- | div.un of two longs | 00 00 01 | 1A 16 6A 25 5C 26 2A
53 3 | div.un of long and int | 00 00 01 | 1A 16 6A 16 5C 26 2A
- | rem of two longs | 00 00 01 | 1A 16 6A 25 5D 26 2A
53 3 | rem of long and int | 00 00 01 | 1A 16 6A 16 5D 26 2A
- | rem.un of two longs | 00 00 01 | 1A 16 6A 25 5E 26 2A
53 3 | rem.un of long and int | 00 00 01 | 1A 16 6A 16 5E 26 2A
- | and of two longs | 00 00 01 | 1A 16 6A 25 5F 26 2A
53 3 | and of long and int | 00 00 01 | 1A 16 6A 16 5F 26 2A
- | or of two longs | 00 00 01 | 1A 16 6A 25 60 26 2A
53 3 | or of long and int | 00 00 01 | 1A 16 6A 16 60 26 2A
- | xor of two longs | 00 00 01 | 1A 16 6A 25 61 26 2A
53 3 | xor of long and int | 00 00 01 | 1A 16 6A 16 61 26 2A
- | add.ovf of two longs | 00 00 01 | 1A 16 6A 25 D6 26 2A
53 3 | add.ovf of long and int | 00 00 01 | 1A 16 6A 16 D6 26 2A
- | sub.ovf.un of two longs | 00 00 01 | 1A 16 6A 25 DB 26 2A
53 3 | sub.ovf.un of long and int | 00 00 01 | 1A 16 6A 16 DB 26 2A
53 3 | add of int and long | 00 00 01 | 1A 16 16 6A 58 26 2A
53 2 | add of references | 00 00 01 | 16 14 14 58 26 2A
- | a long's shift by an int | 00 00 01 | 1A 16 6A 16 62 26 2A
53 3 | an int's shift by a long | 00 00 01 | 1A 16 16 6A 62 26 2A
53 2 | a reference's shift | 00 00 01 | 16 14 16 64 26 2A
- | neg of a long | 00 00 01 | 16 16 6A 65 26 2A
53 1 | neg of a reference | 00 00 01 | 12 14 65 26 2A
53 1 | not of a reference | 00 00 01 | 12 14 66 26 2A
53 1 | a conversion of a reference | 00 00 01 | 12 14 69 26 2A
53 1 | a checked conversion of a reference | 00 00 01 | 12 14 82 26 2A
53 2 | a conversion of a pointer | 00 00 01 | 03 30 08 00 05 00 00 00 01 00 00 11 12 00 E0 26 2A
- | a long that conv.i8 gives | 00 00 0A | 0E 16 6A 2A
- | a long that conv.ovf.u8.un gives | 00 00 0B | 0E 16 89 2A
53 2 | an int that conv.u gives | 00 00 0A | 0E 16 E0 2A
53 3 | ceq of int and long | 00 00 01 | 1E 16 6A 16 FE 01 26 2A
- | ceq of references | 00 00 01 | 1A 14 14 FE 01 26 2A
- | cgt.un of references | 00 00 01 | 1A 14 14 FE 03 26 2A
53 2 | cgt of references | 00 00 01 | 1A 14 14 FE 02 26 2A
53 2 | clt.un of references | 00 00 01 | 1A 14 14 FE 05 26 2A
53 2 | ceq of a reference and a number | 00 00 01 | 1A 14 16 FE 01 26 2A
53 4 | ceq of pointers | 00 00 01 | 03 30 08 00 08 00 00 00 01 00 00 11 12 00 12 00 FE 01 26 2A
53 4 | a comparison gives an int | 00 00 0A | 16 16 16 FE 01 2A
- | beq of references | 00 00 01 | 16 14 14 2E 00 2A
- | bne.un of references | 00 00 01 | 16 14 14 33 00 2A
53 2 | bge of references | 00 00 01 | 16 14 14 2F 00 2A
53 2 | bgt.un of references | 00 00 01 | 16 14 14 35 00 2A
53 3 | blt of int and long | 00 00 01 | 1A 16 16 6A 32 00 2A
- | a branch on a long | 00 00 01 | 16 16 6A 2C 00 2A
- | a branch on a reference | 00 00 01 | 12 14 2D 00 2A
53 2 | a branch on a pointer | 00 00 01 | 03 30 08 00 05 00 00 00 01 00 00 11 12 00 2D 00 2A
53 5 | a branch on a field handle | 00 00 01 | 22 D0 0A 00 00 04 2C 00 2A
53 2 | a switch on a long | 00 00 01 | 22 16 6A 45 00 00 00 00 2A
53 1 | a switch on a reference | 00 00 01 | 1E 14 45 00 00 00 00 2A
- | pop of a field handle | 00 00 01 | 26 D0 0A 00 00 04 25 26 26 2A
";

#[test]
fn arithmetic(rt: HostRuntime) -> Result<(), Fail> {
    methods_are_told(&rt, ARITHMETIC)
}

/// Places, and what they take (I.8.7.3).
const STORES: &str = "
- | an int in an int | 00 00 01 | 03 30 08 00 05 00 00 00 01 00 00 11 11 00 13 00 2A
- | a bool in an int | 00 00 01 | 03 30 08 00 05 00 00 00 01 00 00 11 11 0A 13 00 2A
- | an int in a char | 00 00 01 | 03 30 08 00 05 00 00 00 01 00 00 11 11 00 13 0C 2A
- | an enum in an int | 00 00 01 | 03 30 08 00 05 00 00 00 01 00 00 11 11 0B 13 00 2A
- | a long enum in a long | 00 00 01 | 03 30 08 00 05 00 00 00 01 00 00 11 11 0D 13 01 2A
53 2 | a long enum in an int | 00 00 01 | 03 30 08 00 05 00 00 00 01 00 00 11 11 0D 13 00 2A
53 2 | an int in a long | 00 00 01 | 03 30 08 00 05 00 00 00 01 00 00 11 11 00 13 01 2A
53 2 | a long in an int | 00 00 01 | 03 30 08 00 05 00 00 00 01 00 00 11 11 01 13 00 2A
- | a subclass in a class | 00 00 01 | 03 30 08 00 05 00 00 00 01 00 00 11 11 05 13 04 2A
53 2 | a class in its subclass | 00 00 01 | 03 30 08 00 05 00 00 00 01 00 00 11 11 04 13 05 2A
- | a class in an object | 00 00 01 | 03 30 08 00 05 00 00 00 01 00 00 11 11 04 13 03 2A
53 2 | an object in a class | 00 00 01 | 03 30 08 00 05 00 00 00 01 00 00 11 11 03 13 04 2A
53 2 | an int in an object | 00 00 01 | 03 30 08 00 05 00 00 00 01 00 00 11 11 00 13 03 2A
- | an implementer in its interface | 00 00 01 | 03 30 08 00 05 00 00 00 01 00 00 11 11 0E 13 06 2A
53 2 | an interface in its implementer | 00 00 01 | 03 30 08 00 05 00 00 00 01 00 00 11 11 06 13 0E 2A
53 2 | another class in an interface | 00 00 01 | 03 30 08 00 05 00 00 00 01 00 00 11 11 04 13 06 2A
- | an interface in an object | 00 00 01 | 03 30 08 00 05 00 00 00 01 00 00 11 11 06 13 03 2A
- | an array in an object | 00 00 01 | 03 30 08 00 05 00 00 00 01 00 00 11 11 07 13 03 2A
53 2 | an array in another one | 00 00 01 | 03 30 08 00 05 00 00 00 01 00 00 11 11 07 13 08 2A
- | an array of a subclass | 00 00 01 | 03 30 08 00 05 00 00 00 01 00 00 11 11 10 13 09 2A
53 2 | an array of the superclass | 00 00 01 | 03 30 08 00 05 00 00 00 01 00 00 11 11 09 13 10 2A
- | an array of texts in one of objects | 00 00 01 | 03 30 08 00 05 00 00 00 01 00 00 11 11 11 13 08 2A
53 2 | an array in a class | 00 00 01 | 03 30 08 00 05 00 00 00 01 00 00 11 11 09 13 04 2A
53 2 | an object in an array | 00 00 01 | 03 30 08 00 05 00 00 00 01 00 00 11 11 03 13 08 2A
- | a text in an object | 00 00 01 | 03 30 08 00 05 00 00 00 01 00 00 11 11 02 13 03 2A
53 2 | a text in a class | 00 00 01 | 03 30 08 00 05 00 00 00 01 00 00 11 11 02 13 04 2A
- | null in string | 00 00 01 | 03 30 08 00 04 00 00 00 01 00 00 11 14 13 02 2A
- | null in object | 00 00 01 | 03 30 08 00 04 00 00 00 01 00 00 11 14 13 03 2A
- | null in Base | 00 00 01 | 03 30 08 00 04 00 00 00 01 00 00 11 14 13 04 2A
- | null in Shape | 00 00 01 | 03 30 08 00 04 00 00 00 01 00 00 11 14 13 06 2A
- | null in int[] | 00 00 01 | 03 30 08 00 04 00 00 00 01 00 00 11 14 13 07 2A
53 1 | null in a number | 00 00 01 | 03 30 08 00 04 00 00 00 01 00 00 11 14 13 00 2A
- | a boxed number in an object | 00 00 01 | 03 30 08 00 09 00 00 00 01 00 00 11 16 8C 06 00 00 01 13 03 2A
53 6 | a boxed number in a number | 00 00 01 | 03 30 08 00 09 00 00 00 01 00 00 11 16 8C 06 00 00 01 13 00 2A
53 2 | a pointer in a number | 00 00 01 | 03 30 08 00 05 00 00 00 01 00 00 11 12 00 13 00 2A
53 5 | a field handle in an object | 00 00 01 | 03 30 08 00 08 00 00 00 01 00 00 11 D0 0A 00 00 04 13 03 2A
- | an argument of its class | 00 01 01 12 0C | 12 14 10 00 2A
53 1 | a number in an argument of a class | 00 01 01 12 0C | 12 16 10 00 2A
53 0 | the address of a pointer argument | 00 01 01 10 08 | 12 0F 00 26 2A
- | a pointer argument | 00 01 01 10 08 | 12 02 4A 26 2A
- | a store of a pointer argument | 00 01 01 10 08 | 12 02 10 00 2A
53 1 | null in a pointer argument | 00 01 01 10 08 | 12 14 10 00 2A
53 2 | a store of a pointer to a wider number | 00 01 01 10 08 | 03 30 08 00 05 00 00 00 01 00 00 11 12 01 10 00 2A
- | a store of a pointer to an enum of that number | 00 01 01 10 08 | 03 30 08 00 05 00 00 00 01 00 00 11 12 0B 10 00 2A
- | a field | 00 00 01 | 22 14 16 7D 01 00 00 04 2A
53 3 | a long in a field of an int | 00 00 01 | 26 14 16 6A 7D 01 00 00 04 2A
- | an int in a field of a byte | 00 00 01 | 22 14 16 7D 05 00 00 04 2A
53 3 | an object in a field of a class | 00 00 01 | 03 30 08 00 09 00 00 00 01 00 00 11 14 11 03 7D 03 00 00 04 2A
- | a subclass in a field of a class | 00 00 01 | 03 30 08 00 09 00 00 00 01 00 00 11 14 11 05 7D 03 00 00 04 2A
53 3 | a field of another class's object | 00 00 01 | 03 30 08 00 09 00 00 00 01 00 00 11 11 03 16 7D 01 00 00 04 2A
- | a field of a subclass's object | 00 00 01 | 03 30 08 00 09 00 00 00 01 00 00 11 11 05 7B 01 00 00 04 26 2A
53 2 | a field of an object | 00 00 01 | 03 30 08 00 09 00 00 00 01 00 00 11 11 03 7B 01 00 00 04 26 2A
53 2 | a field's address of an object | 00 00 01 | 03 30 08 00 09 00 00 00 01 00 00 11 11 03 7C 01 00 00 04 26 2A
53 1 | a field of a number | 00 00 01 | 22 16 7B 01 00 00 04 26 2A
53 1 | an int in a static field of a long | 00 00 01 | 1E 16 80 07 00 00 04 2A
- | null in a static field | 00 00 01 | 1E 14 80 08 00 00 04 2A
- | a static field's address | 00 00 01 | 22 7F 06 00 00 04 16 54 2A
- | a field's address | 00 00 01 | 32 14 7C 01 00 00 04 28 09 00 00 06 2A
- | a field's result | 00 00 0A | 1E 14 7B 02 00 00 04 2A
";

#[test]
fn stores(rt: HostRuntime) -> Result<(), Fail> {
    methods_are_told(&rt, STORES)
}

/// Arguments, `this` and results (III.3.19, III.4.2).
const CALLS: &str = "
- | arguments | 00 00 01 | 2A 16 16 6A 28 06 00 00 06 26 2A
53 2 | an int for a long | 00 00 01 | 26 16 16 28 06 00 00 06 26 2A
53 3 | a long for an int | 00 00 01 | 2A 16 6A 25 28 06 00 00 06 26 2A
53 2 | an object for a class | 00 00 01 | 03 30 08 00 09 00 00 00 01 00 00 11 11 03 28 07 00 00 06 26 2A
- | a subclass for a class | 00 00 01 | 03 30 08 00 09 00 00 00 01 00 00 11 11 05 28 07 00 00 06 26 2A
- | texts for objects | 00 00 01 | 03 30 08 00 08 00 00 00 01 00 00 11 11 11 28 08 00 00 06 2A
53 2 | numbers for objects | 00 00 01 | 03 30 08 00 08 00 00 00 01 00 00 11 11 07 28 08 00 00 06 2A
- | a pointer | 00 00 01 | 03 30 08 00 08 00 00 00 01 00 00 11 12 00 28 09 00 00 06 2A
- | a pointer to an enum for its number | 00 00 01 | 03 30 08 00 08 00 00 00 01 00 00 11 12 0B 28 09 00 00 06 2A
53 2 | a pointer to a bool for an int | 00 00 01 | 03 30 08 00 08 00 00 00 01 00 00 11 12 0A 28 09 00 00 06 2A
- | a pointer to a bool for a byte | 00 00 01 | 03 30 08 00 08 00 00 00 01 00 00 11 12 0A 28 0B 00 00 06 2A
- | a pointer to a byte | 00 00 01 | 03 30 08 00 08 00 00 00 01 00 00 11 12 0F 28 0B 00 00 06 2A
53 2 | a pointer to a char for a byte | 00 00 01 | 03 30 08 00 08 00 00 00 01 00 00 11 12 0C 28 0B 00 00 06 2A
53 1 | null for a pointer | 00 00 01 | 1E 14 28 09 00 00 06 2A
53 1 | an int for a pointer | 00 00 01 | 1E 16 28 09 00 00 06 2A
- | this of a subclass | 00 00 01 | 03 30 08 00 08 00 00 00 01 00 00 11 11 05 28 04 00 00 06 2A
53 2 | this of another class | 00 00 01 | 03 30 08 00 08 00 00 00 01 00 00 11 11 03 28 04 00 00 06 2A
53 2 | this of another class by callvirt | 00 00 01 | 03 30 08 00 09 00 00 00 01 00 00 11 11 0E 6F 05 00 00 06 26 2A
- | this of an implementer | 00 00 01 | 03 30 08 00 09 00 00 00 01 00 00 11 11 0E 6F 11 00 00 06 26 2A
53 2 | this that implements nothing | 00 00 01 | 03 30 08 00 09 00 00 00 01 00 00 11 11 04 6F 11 00 00 06 26 2A
- | this of an interface for Object's method | 00 00 01 | 03 30 08 00 09 00 00 00 01 00 00 11 11 06 6F 02 00 00 0A 26 2A
- | this of an array for Object's method | 00 00 01 | 03 30 08 00 09 00 00 00 01 00 00 11 11 07 6F 02 00 00 0A 26 2A
- | this of an array for Array's method | 00 00 01 | 03 30 08 00 09 00 00 00 01 00 00 11 11 07 6F 10 00 00 0A 26 2A
- | this of a box for Object's method | 00 00 01 | 36 16 8C 06 00 00 01 6F 02 00 00 0A 26 2A
53 6 | this of a box for the number's method | 00 00 01 | 36 16 8C 06 00 00 01 28 06 00 00 0A 26 2A
- | this of a number for an enum's method | 00 00 01 | 03 30 08 00 09 00 00 00 01 00 00 11 12 00 28 18 00 00 06 26 2A
53 2 | this of a wider number | 00 00 01 | 03 30 08 00 09 00 00 00 01 00 00 11 12 01 28 06 00 00 0A 26 2A
53 1 | null for a number's method | 00 00 01 | 22 14 28 06 00 00 0A 26 2A
- | this of the case for its superclass | 20 00 01 | 1E 02 28 04 00 00 06 2A
53 2 | a long for a constructor | 00 00 01 | 26 16 6A 73 03 00 00 06 26 2A
- | the new object | 00 00 01 | 32 73 0D 00 00 06 28 07 00 00 06 26 2A
53 5 | another new object | 00 00 01 | 32 73 13 00 00 06 28 07 00 00 06 26 2A
- | a field handle for an array's bytes | 00 00 01 | 46 17 8D 06 00 00 01 D0 0B 00 00 04 28 07 00 00 0A 2A
53 7 | a field handle for an object | 00 00 01 | 03 30 08 00 0D 00 00 00 01 00 00 11 11 03 D0 0B 00 00 04 28 07 00 00 0A 2A
53 2 | null for a field handle | 00 00 01 | 22 14 14 28 07 00 00 0A 2A
- | an enum result for a number | 00 00 01 | 3A 28 17 00 00 06 16 6A 28 06 00 00 06 26 2A
- | a return of a number | 00 00 02 | 0A 16 2A
53 2 | a return of a long for an int | 00 00 08 | 0E 16 6A 2A
- | a return of null | 00 00 12 0C | 0A 14 2A
- | a return of a subclass | 00 00 12 0C | 03 30 08 00 03 00 00 00 01 00 00 11 11 05 2A
53 2 | a return of an object for a class | 00 00 12 0C | 03 30 08 00 03 00 00 00 01 00 00 11 11 03 2A
- | a return of a number for an enum | 00 00 11 24 | 0A 16 2A
53 1 | a return of a number for an object | 00 00 1C | 0A 16 2A
- | throw of an exception | 00 00 01 | 1A 73 1A 00 00 06 7A
53 5 | throw of another object | 00 00 01 | 1A 73 02 00 00 06 7A
53 1 | throw of a number | 00 00 01 | 0A 16 7A
";

#[test]
fn calls(rt: HostRuntime) -> Result<(), Fail> {
    methods_are_told(&rt, CALLS)
}

/// Arrays and their elements (III.4.7 to III.4.9, III.4.26).
const ARRAYS: &str = "
- | an element of ints | 00 00 01 | 03 30 08 00 06 00 00 00 01 00 00 11 11 07 16 94 26 2A
- | an element of ints unsigned | 00 00 01 | 03 30 08 00 06 00 00 00 01 00 00 11 11 07 16 95 26 2A
53 3 | an element of ints as bytes | 00 00 01 | 03 30 08 00 06 00 00 00 01 00 00 11 11 07 16 91 26 2A
53 3 | an element of ints as longs | 00 00 01 | 03 30 08 00 06 00 00 00 01 00 00 11 11 07 16 96 26 2A
53 3 | an element of references as ints | 00 00 01 | 03 30 08 00 06 00 00 00 01 00 00 11 11 11 16 94 26 2A
- | an element of references | 00 00 01 | 03 30 08 00 06 00 00 00 01 00 00 11 11 11 16 9A 26 2A
53 3 | an element of ints as references | 00 00 01 | 03 30 08 00 06 00 00 00 01 00 00 11 11 07 16 9A 26 2A
53 3 | an element of an object | 00 00 01 | 03 30 08 00 06 00 00 00 01 00 00 11 11 03 16 94 26 2A
53 3 | an element of an object for references | 00 00 01 | 03 30 08 00 06 00 00 00 01 00 00 11 11 03 16 9A 26 2A
- | an element of sbyte[] by 90 | 00 00 01 | 2A 14 75 10 00 00 1B 16 90 26 2A
- | an element of byte[] by 91 | 00 00 01 | 2A 14 75 0C 00 00 1B 16 91 26 2A
- | an element of short[] by 92 | 00 00 01 | 2A 14 75 0E 00 00 1B 16 92 26 2A
- | an element of ushort[] by 93 | 00 00 01 | 2A 14 75 0F 00 00 1B 16 93 26 2A
- | an element of uint[] by 95 | 00 00 01 | 2A 14 75 0A 00 00 1B 16 95 26 2A
- | an element of long[] by 96 | 00 00 01 | 2A 14 75 06 00 00 1B 16 96 26 2A
- | an element of ulong[] by 96 | 00 00 01 | 2A 14 75 11 00 00 1B 16 96 26 2A
- | an element of bool[] by 91 | 00 00 01 | 2A 14 75 0B 00 00 1B 16 91 26 2A
- | an element of bool[] by 90 | 00 00 01 | 2A 14 75 0B 00 00 1B 16 90 26 2A
- | an element of char[] by 93 | 00 00 01 | 2A 14 75 0D 00 00 1B 16 93 26 2A
- | an element of char[] by 92 | 00 00 01 | 2A 14 75 0D 00 00 1B 16 92 26 2A
- | an element of Color[] by 94 | 00 00 01 | 2A 14 75 08 00 00 1B 16 94 26 2A
53 7 | an element of chars as bytes | 00 00 01 | 2A 14 75 0D 00 00 1B 16 91 26 2A
53 7 | an element of bools as chars | 00 00 01 | 2A 14 75 0B 00 00 1B 16 93 26 2A
- | an element of null | 00 00 01 | 16 14 16 94 26 2A
- | a long element of null | 00 00 0A | 12 14 16 96 2A
- | a reference of null | 00 00 12 0C | 12 14 16 9A 2A
53 4 | a long for an index | 00 00 01 | 03 30 08 00 07 00 00 00 01 00 00 11 11 07 16 6A 94 26 2A
53 2 | null for an index | 00 00 01 | 16 14 14 94 26 2A
- | the element's class | 00 00 01 | 03 30 08 00 0B 00 00 00 01 00 00 11 11 10 16 9A 28 07 00 00 06 26 2A
53 4 | another element's class | 00 00 01 | 03 30 08 00 0B 00 00 00 01 00 00 11 11 08 16 9A 28 07 00 00 06 26 2A
- | a store of an int | 00 00 01 | 03 30 08 00 06 00 00 00 01 00 00 11 11 07 16 16 9E 2A
53 5 | a store of a long | 00 00 01 | 03 30 08 00 07 00 00 00 01 00 00 11 11 07 16 16 6A 9E 2A
53 4 | a store of another width | 00 00 01 | 03 30 08 00 06 00 00 00 01 00 00 11 11 07 16 16 9C 2A
- | a store of a reference of any class | 00 00 01 | 03 30 08 00 07 00 00 00 01 00 00 11 11 11 16 11 04 A2 2A
53 4 | a store of a number among references | 00 00 01 | 03 30 08 00 06 00 00 00 01 00 00 11 11 08 16 16 A2 2A
53 4 | a store of null among numbers | 00 00 01 | 03 30 08 00 06 00 00 00 01 00 00 11 11 07 16 14 A2 2A
- | a store of null | 00 00 01 | 03 30 08 00 06 00 00 00 01 00 00 11 11 08 16 14 A2 2A
- | a store into null | 00 00 01 | 16 14 16 14 A2 2A
- | a store of a long into null | 00 00 01 | 1A 14 16 16 6A 9F 2A
53 3 | a store of an int into null by the long's instruction | 00 00 01 | 16 14 16 16 9F 2A
- | ldelem of the superclass | 00 00 01 | 03 30 08 00 0A 00 00 00 01 00 00 11 11 10 16 A3 03 00 00 02 26 2A
53 3 | ldelem of the subclass | 00 00 01 | 03 30 08 00 0A 00 00 00 01 00 00 11 11 09 16 A3 04 00 00 02 26 2A
- | ldelem of an enum among ints | 00 00 01 | 03 30 08 00 0A 00 00 00 01 00 00 11 11 07 16 A3 09 00 00 02 26 2A
53 3 | ldelem of a long among ints | 00 00 01 | 03 30 08 00 0A 00 00 00 01 00 00 11 11 07 16 A3 0D 00 00 01 26 2A
- | ldelem of objects among texts | 00 00 01 | 03 30 08 00 0A 00 00 00 01 00 00 11 11 11 16 A3 01 00 00 01 26 2A
53 3 | ldelem of objects among ints | 00 00 01 | 03 30 08 00 0A 00 00 00 01 00 00 11 11 07 16 A3 01 00 00 01 26 2A
- | stelem of the class | 00 00 01 | 03 30 08 00 0B 00 00 00 01 00 00 11 11 09 16 11 05 A4 03 00 00 02 2A
53 5 | stelem of another class | 00 00 01 | 03 30 08 00 0B 00 00 00 01 00 00 11 11 09 16 11 03 A4 03 00 00 02 2A
- | stelem among those of a subclass | 00 00 01 | 03 30 08 00 0B 00 00 00 01 00 00 11 11 10 16 11 04 A4 03 00 00 02 2A
- | ldelema | 00 00 01 | 03 30 08 00 0E 00 00 00 01 00 00 11 11 07 16 8F 06 00 00 01 28 09 00 00 06 2A
- | ldelema of the superclass | 00 00 01 | 03 30 08 00 10 00 00 00 01 00 00 11 11 10 16 8F 03 00 00 02 50 28 07 00 00 06 26 2A
53 3 | ldelema of the subclass | 00 00 01 | 03 30 08 00 0A 00 00 00 01 00 00 11 11 09 16 8F 04 00 00 02 26 2A
- | an array's length | 00 00 08 | 0E 14 8E 2A
- | the length of references | 00 00 01 | 03 30 08 00 05 00 00 00 01 00 00 11 11 08 8E 26 2A
53 2 | the length of an object | 00 00 01 | 03 30 08 00 05 00 00 00 01 00 00 11 11 03 8E 26 2A
53 6 | the length of an Array | 00 00 01 | 26 14 74 08 00 00 01 8E 26 2A
53 2 | a new array of a long's length | 00 00 01 | 26 16 6A 8D 06 00 00 01 26 2A
- | a new array | 00 00 01 | 2A 16 8D 06 00 00 01 16 94 26 2A
53 7 | a new array of other elements | 00 00 01 | 2A 16 8D 06 00 00 01 16 9A 26 2A
- | an array of arrays | 00 00 01 | 2E 16 8D 01 00 00 1B 16 9A 8E 26 2A
";

#[test]
fn arrays(rt: HostRuntime) -> Result<(), Fail> {
    methods_are_told(&rt, ARRAYS)
}

/// Pointers, casts and boxes (III.3.42, III.4.1, III.4.3, III.4.32).
const POINTERS: &str = "
- | a load of an int | 00 00 01 | 03 30 08 00 05 00 00 00 01 00 00 11 12 00 4A 26 2A
- | a load of an int unsigned | 00 00 01 | 03 30 08 00 05 00 00 00 01 00 00 11 12 00 4B 26 2A
53 2 | a load of an int as a long | 00 00 01 | 03 30 08 00 05 00 00 00 01 00 00 11 12 00 4C 26 2A
- | a load of an enum | 00 00 01 | 03 30 08 00 05 00 00 00 01 00 00 11 12 0B 4A 26 2A
- | a load of a bool | 00 00 01 | 03 30 08 00 05 00 00 00 01 00 00 11 12 0A 47 26 2A
- | a load of a char | 00 00 01 | 03 30 08 00 05 00 00 00 01 00 00 11 12 0C 49 26 2A
53 2 | a load of a char as a byte | 00 00 01 | 03 30 08 00 05 00 00 00 01 00 00 11 12 0C 47 26 2A
- | a load of a long | 00 00 01 | 03 30 08 00 05 00 00 00 01 00 00 11 12 01 4C 26 2A
- | a load of a class | 00 00 01 | 03 30 08 00 05 00 00 00 01 00 00 11 12 04 50 26 2A
53 2 | a load of an int as a reference | 00 00 01 | 03 30 08 00 05 00 00 00 01 00 00 11 12 00 50 26 2A
53 2 | a load of a class as an int | 00 00 01 | 03 30 08 00 05 00 00 00 01 00 00 11 12 04 4A 26 2A
53 1 | a load by null | 00 00 01 | 12 14 4A 26 2A
53 1 | a load by a number | 00 00 01 | 12 16 4A 26 2A
53 2 | a load by an object | 00 00 01 | 03 30 08 00 05 00 00 00 01 00 00 11 11 03 50 26 2A
- | a store by a pointer | 00 00 01 | 03 30 08 00 05 00 00 00 01 00 00 11 12 00 16 54 2A
53 4 | a store of a long by an int's pointer | 00 00 01 | 03 30 08 00 06 00 00 00 01 00 00 11 12 00 16 6A 54 2A
53 3 | a store of another width by a pointer | 00 00 01 | 03 30 08 00 05 00 00 00 01 00 00 11 12 00 16 52 2A
- | a store of a subclass by a pointer | 00 00 01 | 03 30 08 00 06 00 00 00 01 00 00 11 12 04 11 05 51 2A
53 4 | a store of an object by a pointer | 00 00 01 | 03 30 08 00 06 00 00 00 01 00 00 11 12 04 11 03 51 2A
53 3 | a store of null by a number's pointer | 00 00 01 | 03 30 08 00 05 00 00 00 01 00 00 11 12 00 14 51 2A
- | ldobj of an enum by its number's pointer | 00 00 01 | 03 30 08 00 09 00 00 00 01 00 00 11 12 00 71 09 00 00 02 26 2A
53 2 | ldobj of a long by an int's pointer | 00 00 01 | 03 30 08 00 09 00 00 00 01 00 00 11 12 00 71 0D 00 00 01 26 2A
- | ldobj of a class | 00 00 01 | 03 30 08 00 0E 00 00 00 01 00 00 11 12 04 71 03 00 00 02 28 07 00 00 06 26 2A
53 2 | ldobj of the superclass | 00 00 01 | 03 30 08 00 09 00 00 00 01 00 00 11 12 05 71 03 00 00 02 26 2A
- | stobj of a number | 00 00 01 | 03 30 08 00 09 00 00 00 01 00 00 11 12 00 16 81 06 00 00 01 2A
53 4 | stobj of a long | 00 00 01 | 03 30 08 00 0A 00 00 00 01 00 00 11 12 00 16 6A 81 06 00 00 01 2A
53 4 | stobj of another class | 00 00 01 | 03 30 08 00 0A 00 00 00 01 00 00 11 12 04 11 03 81 03 00 00 02 2A
- | castclass gives the class | 00 00 01 | 36 14 74 03 00 00 02 28 07 00 00 06 26 2A
- | castclass of an object | 00 00 01 | 03 30 08 00 0E 00 00 00 01 00 00 11 11 03 74 03 00 00 02 28 07 00 00 06 26 2A
53 1 | castclass of a number | 00 00 01 | 22 16 74 03 00 00 02 26 2A
53 1 | isinst of a number | 00 00 01 | 22 16 75 03 00 00 02 26 2A
- | isinst of a box | 00 00 01 | 36 16 8C 06 00 00 01 75 06 00 00 01 26 2A
53 6 | isinst of a number gives a box | 00 00 08 | 1E 14 75 06 00 00 01 2A
- | unbox.any gives the number | 00 00 08 | 1E 14 A5 06 00 00 01 2A
- | unbox.any gives the class | 00 00 12 0C | 1E 14 A5 03 00 00 02 2A
53 1 | unbox.any of a number | 00 00 01 | 22 16 A5 06 00 00 01 26 2A
- | unbox gives a pointer | 00 00 01 | 32 14 79 06 00 00 01 28 09 00 00 06 2A
53 1 | unbox of a number | 00 00 01 | 22 16 79 06 00 00 01 26 2A
53 2 | box of a long as an int | 00 00 01 | 26 16 6A 8C 06 00 00 01 26 2A
- | box of a long | 00 00 01 | 26 16 6A 8C 0D 00 00 01 26 2A
53 1 | box of null | 00 00 01 | 22 14 8C 06 00 00 01 26 2A
53 6 | a box for the number | 00 00 08 | 1E 16 8C 06 00 00 01 2A
";

#[test]
fn pointers(rt: HostRuntime) -> Result<(), Fail> {
    methods_are_told(&rt, POINTERS)
}
