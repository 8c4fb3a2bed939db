//! Natives of objects, enums and numbers, and numbers that no native has.

use crate::cases::run;
use std::test::Fail;

/// `Object.ToString`, 1, `Enum.Equals`, 2, and `Enum.ToString`, 3.
const OBJECTS: &str = r#"
an object | object Class@0 | 1 #1 | gives "Ns.Name"
a name of six units | object Class@1 | 1 #1 | gives "Ns.Six"
a nested class | object Class@2 | 1 #1 | gives "Ns.Outer+Inner"
a class without a name | object Class@5 | 1 #1 | gives ""
an array of objects | array Class@0 null | 1 #1 | gives "Ns.Name[]"
an empty array of nested ones | array Class@2 | 1 #1 | gives "Ns.Outer+Inner[]"
an array of numbers | array I4 1 2 | 1 #1 | gives "Plain[]"
an array of arrays | array I4[] null | 1 #1 | gives "Plain[]"
an array of enums | array I4@3 1 | 1 #1 | gives "Ns.Colour[]"
an enum's box | box I4@3 1 | 1 #1 | gives "Ns.Colour"
a number's box | box I8 1L | 1 #1 | gives "Plain"
a string | text abc | 1 #1 | gives "Plain"
the first of two arguments | object Class@0, object Class@1 | 1 #2 #1 | gives "Ns.Six"
the name of null | | 1 null | throws NullReference
the name of a number | | 1 5 | no case
the name of a pointer | static | 1 pointer | no case
the name of a static field | static | 1 #1 | no case
the name of nothing | | 1 | no case
the same enum and number | box I4@3 7, box I4@3 7 | 2 #1 #2 | gives 1
the same box | box U1@3 7 | 2 #1 #1 | gives 1
long enums | box I8@3 -7L, box I8@3 -7L | 2 #1 #2 | gives 1
long enums that differ above | box I8@3 7L, box I8@3 4294967303L | 2 #1 #2 | gives 0
another number | box I4@3 7, box I4@3 8 | 2 #1 #2 | gives 0
another enum | box I4@3 7, box I4@4 7 | 2 #1 #2 | gives 0
the enum's number | box I4@3 7, box I4 7 | 2 #1 #2 | gives 0
an enum and a string | box I4@3 7, text 7 | 2 #1 #2 | gives 0
an enum and an array | box I4@3 7, array I4@3 7 | 2 #1 #2 | gives 0
an enum and null | box I4@3 7 | 2 #1 null | gives 0
null and an enum | box I4@3 7 | 2 null #1 | throws NullReference
null and null | | 2 null null | throws NullReference
no enum and an enum | box I4 7, box I4@3 7 | 2 #1 #2 | no case
an object and an enum | object Class@0, box I4@3 7 | 2 #1 #2 | no case
a number and an enum | box I4@3 7 | 2 7 #1 | no case
an enum and a number | box I4@3 7 | 2 #1 7 | no case
an enum alone | box I4@3 7 | 2 #1 | no case
an enum's text | box I4@3 -7 | 3 #1 | gives "-7"
a byte | box U1@3 255 | 3 #1 | gives "255"
a signed byte | box I1@3 -128 | 3 #1 | gives "-128"
a short | box I2@3 -32768 | 3 #1 | gives "-32768"
an unsigned short | box U2@3 65535 | 3 #1 | gives "65535"
an unsigned int | box U4@3 -1 | 3 #1 | gives "4294967295"
the least long | box I8@3 -9223372036854775808L | 3 #1 | gives "-9223372036854775808"
the most unsigned long | box U8@3 -1L | 3 #1 | gives "18446744073709551615"
null's text | | 3 null | throws NullReference
a plain box's text | box I4 7 | 3 #1 | no case
a string's text | text abc | 3 #1 | no case
a number's text | | 3 7 | no case
no argument | | 3 | no case
"#;

/// `Number.Signed`, 14, and `Number.Unsigned`, 15.
const NUMBERS: &str = r#"
zero | | 14 0L | gives "0"
a negative number | | 14 -1L | gives "-1"
six units | | 14 123456L | gives "123456"
seven units | | 14 -123456L | gives "-123456"
the most | | 14 9223372036854775807L | gives "9223372036854775807"
the least | | 14 -9223372036854775808L | gives "-9223372036854775808"
an int32 | | 14 1 | no case
null | | 14 null | no case
no number | | 14 | no case
zero unsigned | | 15 0L | gives "0"
the most unsigned | | 15 -1L | gives "18446744073709551615"
the most signed | | 15 9223372036854775807L | gives "9223372036854775807"
one above | | 15 -9223372036854775808L | gives "9223372036854775808"
an unsigned int32 | | 15 1 | no case
an unsigned null | | 15 null | no case
native 0 | object Class@0 | 0 #1 | no case
native 18 | text abc | 18 #1 | no case
native 65535 | text abc | 65535 #1 #1 #1 #1 #1 | no case
"#;

#[test]
fn objects_and_enums(rt: HostRuntime) -> Result<(), Fail> {
    run(&rt, rt.alloc(), OBJECTS)
}

#[test]
fn numbers(rt: HostRuntime) -> Result<(), Fail> {
    run(&rt, rt.alloc(), NUMBERS)
}
