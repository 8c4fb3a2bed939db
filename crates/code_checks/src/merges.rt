//! Rule 53 where ways meet (ECMA-335 III.1.8.1.3).

use crate::told::methods_are_told;
use std::test::Fail;

/// What two sides merge to, and what comes back.
const MERGES: &str = "
- | subclass and class | 00 00 01 | 03 30 08 00 10 00 00 00 01 00 00 11 16 2D 04 11 05 2B 02 11 04 28 07 00 00 06 26 2A
- | class and subclass | 00 00 01 | 03 30 08 00 10 00 00 00 01 00 00 11 16 2D 04 11 04 2B 02 11 05 28 07 00 00 06 26 2A
- | class and subclass for a field | 00 00 01 | 03 30 08 00 10 00 00 00 01 00 00 11 16 2D 04 11 04 2B 02 11 05 7B 01 00 00 04 26 2A
53 9 | two classes | 00 00 01 | 03 30 08 00 10 00 00 00 01 00 00 11 16 2D 04 11 0E 2B 02 11 04 28 07 00 00 06 26 2A
- | two classes give Object | 00 00 01 | 03 30 08 00 10 00 00 00 01 00 00 11 16 2D 04 11 0E 2B 02 11 04 6F 02 00 00 0A 26 2A
- | an exception and its superclass | 00 00 01 | 03 30 08 00 10 00 00 00 01 00 00 11 16 2D 07 73 1A 00 00 06 2B 05 73 0F 00 00 0A 7A
- | two exceptions give Exception | 00 00 01 | 03 30 08 00 11 00 00 00 01 00 00 11 16 2D 07 73 1A 00 00 06 2B 06 14 74 0C 00 00 01 7A
53 15 | an exception and another class | 00 00 01 | 03 30 08 00 10 00 00 00 01 00 00 11 16 2D 07 73 1A 00 00 06 2B 05 73 02 00 00 06 7A
53 13 | two classes of one interface | 00 00 01 | 03 30 08 00 14 00 00 00 01 00 00 11 16 2D 04 11 0E 2B 06 14 74 08 00 00 02 6F 11 00 00 06 26 2A
- | class and its interface | 00 00 01 | 03 30 08 00 10 00 00 00 01 00 00 11 16 2D 04 11 0E 2B 02 11 06 6F 11 00 00 06 26 2A
- | interface and its class | 00 00 01 | 03 30 08 00 10 00 00 00 01 00 00 11 16 2D 04 11 06 2B 02 11 0E 6F 11 00 00 06 26 2A
53 9 | interface and another class | 00 00 01 | 03 30 08 00 10 00 00 00 01 00 00 11 16 2D 04 11 06 2B 02 11 04 6F 11 00 00 06 26 2A
- | interface and another class give Object | 00 00 01 | 03 30 08 00 10 00 00 00 01 00 00 11 16 2D 04 11 06 2B 02 11 04 6F 02 00 00 0A 26 2A
53 13 | two interfaces | 00 00 01 | 03 30 08 00 14 00 00 00 01 00 00 11 16 2D 04 11 06 2B 06 14 74 09 00 00 01 6F 11 00 00 06 26 2A
53 9 | Object and a class | 00 00 01 | 03 30 08 00 10 00 00 00 01 00 00 11 16 2D 04 11 03 2B 02 11 04 28 07 00 00 06 26 2A
- | two arrays give Array | 00 00 01 | 03 30 08 00 10 00 00 00 01 00 00 11 16 2D 04 11 07 2B 02 11 08 6F 10 00 00 0A 26 2A
53 9 | two arrays are none | 00 00 01 | 03 30 08 00 0C 00 00 00 01 00 00 11 16 2D 04 11 07 2B 02 11 08 8E 26 2A
- | arrays of subclass and class | 00 00 01 | 03 30 08 00 12 00 00 00 01 00 00 11 16 2D 04 11 10 2B 02 11 09 16 9A 28 07 00 00 06 26 2A
- | arrays of class and subclass | 00 00 01 | 03 30 08 00 12 00 00 00 01 00 00 11 16 2D 04 11 09 2B 02 11 10 16 9A 28 07 00 00 06 26 2A
53 9 | arrays of two classes | 00 00 01 | 03 30 08 00 0C 00 00 00 01 00 00 11 16 2D 04 11 11 2B 02 11 09 8E 26 2A
- | arrays of texts and objects | 00 00 01 | 03 30 08 00 0F 00 00 00 01 00 00 11 16 2D 04 11 11 2B 02 11 08 28 08 00 00 06 2A
- | arrays of a signed and an unsigned number | 00 00 01 | 03 30 08 00 15 00 00 00 01 00 00 11 16 2D 04 11 07 2B 06 14 74 0A 00 00 1B 16 A3 09 00 00 02 26 2A
53 13 | arrays of two numbers | 00 00 01 | 03 30 08 00 10 00 00 00 01 00 00 11 16 2D 04 11 07 2B 06 14 74 06 00 00 1B 8E 26 2A
- | array and class give Object | 00 00 01 | 03 30 08 00 10 00 00 00 01 00 00 11 16 2D 04 11 07 2B 02 11 04 6F 02 00 00 0A 26 2A
53 9 | array and class | 00 00 01 | 03 30 08 00 10 00 00 00 01 00 00 11 16 2D 04 11 07 2B 02 11 04 6F 10 00 00 0A 26 2A
- | array and Array | 00 00 01 | 03 30 08 00 14 00 00 00 01 00 00 11 16 2D 04 11 07 2B 06 14 74 08 00 00 01 6F 10 00 00 0A 26 2A
- | null and a class | 00 00 01 | 03 30 08 00 0F 00 00 00 01 00 00 11 16 2D 03 14 2B 02 11 04 28 07 00 00 06 26 2A
- | a class and null | 00 00 01 | 03 30 08 00 0F 00 00 00 01 00 00 11 16 2D 04 11 04 2B 01 14 28 07 00 00 06 26 2A
- | null and null | 00 00 01 | 03 30 08 00 0E 00 00 00 01 00 00 11 16 2D 03 14 2B 01 14 28 07 00 00 06 26 2A
- | null and an array | 00 00 01 | 03 30 08 00 0B 00 00 00 01 00 00 11 16 2D 03 14 2B 02 11 07 8E 26 2A
53 7 | null and a number | 00 00 01 | 03 30 08 00 09 00 00 00 01 00 00 11 16 2D 03 14 2B 01 16 26 2A
53 7 | a number and null | 00 00 01 | 03 30 08 00 09 00 00 00 01 00 00 11 16 2D 03 16 2B 01 14 26 2A
53 8 | null and a pointer | 00 00 01 | 03 30 08 00 0A 00 00 00 01 00 00 11 16 2D 03 14 2B 02 12 00 26 2A
53 8 | int and long | 00 00 01 | 03 30 08 00 0A 00 00 00 01 00 00 11 16 2D 03 16 2B 02 16 6A 26 2A
53 8 | a number and a class | 00 00 01 | 03 30 08 00 0A 00 00 00 01 00 00 11 16 2D 03 16 2B 02 11 04 26 2A
- | an int and a bool | 00 00 08 | 03 30 08 00 09 00 00 00 01 00 00 11 16 2D 03 16 2B 02 11 0A 2A
- | two boxes give ValueType | 00 00 12 09 | 03 30 08 00 13 00 00 00 01 00 00 11 16 2D 08 16 8C 06 00 00 01 2B 07 16 6A 8C 0D 00 00 01 2A
53 18 | two boxes are no Enum | 00 00 12 0D | 03 30 08 00 13 00 00 00 01 00 00 11 16 2D 08 16 8C 06 00 00 01 2B 07 16 6A 8C 0D 00 00 01 2A
- | two boxed enums give Enum | 00 00 12 0D | 03 30 08 00 13 00 00 00 01 00 00 11 16 2D 08 16 8C 09 00 00 02 2B 07 16 6A 8C 0A 00 00 02 2A
- | a boxed enum and a boxed number give ValueType | 00 00 12 09 | 03 30 08 00 12 00 00 00 01 00 00 11 16 2D 08 16 8C 09 00 00 02 2B 06 16 8C 06 00 00 01 2A
53 17 | a boxed enum and a boxed number are no Enum | 00 00 12 0D | 03 30 08 00 12 00 00 00 01 00 00 11 16 2D 08 16 8C 09 00 00 02 2B 06 16 8C 06 00 00 01 2A
- | two boxes of one number | 00 00 01 | 03 30 08 00 18 00 00 00 01 00 00 11 16 2D 08 16 8C 06 00 00 01 2B 06 16 8C 06 00 00 01 A5 06 00 00 01 26 2A
- | a box and a text give Object | 00 00 1C | 03 30 08 00 0E 00 00 00 01 00 00 11 16 2D 08 16 8C 06 00 00 01 2B 02 11 02 2A
53 13 | a box and a text | 00 00 12 09 | 03 30 08 00 0E 00 00 00 01 00 00 11 16 2D 08 16 8C 06 00 00 01 2B 02 11 02 2A
- | a box and null | 00 00 12 09 | 03 30 08 00 0D 00 00 00 01 00 00 11 16 2D 08 16 8C 06 00 00 01 2B 01 14 2A
- | pointers that agree | 00 00 01 | 03 30 08 00 0F 00 00 00 01 00 00 11 16 2D 04 12 00 2B 02 12 0B 28 09 00 00 06 2A
53 9 | pointers to two widths | 00 00 01 | 03 30 08 00 0B 00 00 00 01 00 00 11 16 2D 04 12 00 2B 02 12 01 26 2A
53 9 | pointers to two classes | 00 00 01 | 03 30 08 00 0B 00 00 00 01 00 00 11 16 2D 04 12 04 2B 02 12 05 26 2A
53 9 | a pointer and a number | 00 00 01 | 03 30 08 00 0B 00 00 00 01 00 00 11 16 2D 04 12 00 2B 02 11 00 26 2A
- | field handles | 00 00 01 | 03 30 08 00 11 00 00 00 01 00 00 11 16 2D 07 D0 0A 00 00 04 2B 05 D0 0B 00 00 04 26 2A
53 11 | a field handle and null | 00 00 01 | 03 30 08 00 0D 00 00 00 01 00 00 11 16 2D 07 D0 0A 00 00 04 2B 01 14 26 2A
- | the number below what merges | 00 00 08 | 03 30 08 00 11 00 00 00 01 00 00 11 16 2D 05 16 11 0E 2B 07 16 14 74 08 00 00 02 26 2A
53 15 | no merge below what merges | 00 00 01 | 03 30 08 00 12 00 00 00 01 00 00 11 16 2D 05 16 11 0E 2B 07 14 14 74 08 00 00 02 26 26 2A
53 7 | a branch's edge without a merge | 00 00 01 | 2E 14 16 2D 05 26 16 17 2D 00 26 2A
- | a branch's edge with one | 00 00 01 | 2E 14 16 2D 05 26 14 17 2D 00 26 2A
- | a switch's edges | 00 00 01 | 03 30 08 00 0E 00 00 00 01 00 00 11 11 0E 16 45 01 00 00 00 00 00 00 00 26 2A
- | back to what stands | 00 00 01 | 03 30 08 00 07 00 00 00 01 00 00 11 11 04 26 11 04 2B FB
53 5 | back with a superclass | 00 00 01 | 03 30 08 00 07 00 00 00 01 00 00 11 11 05 26 11 04 2B FB
- | back with a subclass | 00 00 01 | 03 30 08 00 07 00 00 00 01 00 00 11 11 04 26 11 05 2B FB
- | back with null | 00 00 01 | 03 30 08 00 06 00 00 00 01 00 00 11 11 04 26 14 2B FC
53 4 | back to null | 00 00 01 | 03 30 08 00 06 00 00 00 01 00 00 11 14 26 11 04 2B FB
53 4 | back to null with Object | 00 00 01 | 03 30 08 00 06 00 00 00 01 00 00 11 14 26 11 03 2B FB
53 4 | back with a long | 00 00 01 | 1A 16 26 16 6A 2B FB
- | back with an implementer | 00 00 01 | 03 30 08 00 07 00 00 00 01 00 00 11 11 06 26 11 0E 2B FB
- | back with a pointer that agrees | 00 00 01 | 03 30 08 00 07 00 00 00 01 00 00 11 12 00 26 12 0B 2B FB
53 5 | back with a pointer that doesn't | 00 00 01 | 03 30 08 00 07 00 00 00 01 00 00 11 12 00 26 12 01 2B FB
";

#[test]
fn told_of_merges(rt: HostRuntime) -> Result<(), Fail> {
    methods_are_told(&rt, MERGES)
}
