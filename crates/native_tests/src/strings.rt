//! Natives of strings.

use crate::cases::run;
use std::test::Fail;

/// `String.get_Length`, 6, `get_Chars`, 7, `Concat`, 8, and `Debug.Print`, 17, which gives its string's number.
const TEXTS: &str = r#"
no units | text | 6 #1 | gives 0
six units | text abcdef | 6 #1 | gives 6
seven units | text abcdefg | 6 #1 | gives 7
a pair is two units | units 55357 56832 | 6 #1 | gives 2
null's units | | 6 null | throws NullReference
an array's units | array Char 97 | 6 #1 | no case
a number's units | | 6 3 | no case
the first unit | text abcdefg | 7 #1 0 | gives 97
the last of six | text abcdef | 7 #1 5 | gives 102
the last of seven | text abcdefg | 7 #1 6 | gives 103
half of a pair | units 97 55357 56832 | 7 #1 1 | gives 55357
the largest unit | units 65535 | 7 #1 0 | gives 65535
a unit before the first | text abc | 7 #1 -1 | throws IndexOutOfRange
a unit past the last | text abc | 7 #1 3 | throws IndexOutOfRange
a unit of no units | text | 7 #1 0 | throws IndexOutOfRange
the least index | text abc | 7 #1 -2147483648 | throws IndexOutOfRange
the most index | text abc | 7 #1 2147483647 | throws IndexOutOfRange
a unit of null | | 7 null 0 | throws NullReference
null before the index | | 7 null -1 | throws NullReference
a long index | text abc | 7 #1 0L | no case
null and a long index | | 7 null 0L | no case
a unit of an array | array Char 97 | 7 #1 0 | no case
no index | text abc | 7 #1 | no case
two strings to six units | text abc, text def | 8 #1 #2 | gives "abcdef"
two strings to seven units | text abcd, text efg | 8 #1 #2 | gives "abcdefg"
six and seven units | text abcdef, text ghijklm | 8 #1 #2 | gives "abcdefghijklm"
a string twice | text abc | 8 #1 #1 | gives "abcabc"
a string and none | text abc, text | 8 #1 #2 | gives "abc"
none and a string | text abc, text | 8 #2 #1 | gives "abc"
null first | text abc | 8 null #1 | gives "abc"
null last | text abc | 8 #1 null | gives "abc"
null twice | | 8 null null | gives ""
no units twice | text | 8 #1 #1 | gives ""
halves to a pair | units 55357, units 56832 | 8 #1 #2 | gives "<55357><56832>"
halves that are no pair | units 97 56832, units 55357 | 8 #1 #2 | gives "a<56832><55357>"
a string and an array | text abc, array Char 97 | 8 #1 #2 | no case
a number and a string | text abc | 8 1 #1 | no case
null and an object | object Class@0 | 8 null #1 | no case
one string | text abc | 8 #1 | no case
a line | text abc | 17 #1 | prints #1
an empty line | text | 17 #1 | prints #1
null's line | | 17 null | prints null
a pair's line | units 55357 56832 | 17 #1 | prints #1
half of a pair's line | text abc, units 55357 | 17 #2 | prints #2
a number's line | | 17 5 | no case
an array's line | array Char 97 | 17 #1 | no case
a line of nothing | | 17 | no case
"#;

/// `String.Substring`, 9, `FromChars`, 12, and `FromChar`, 13.
const PIECES: &str = r#"
the whole | text abcdefg | 9 #1 0 7 | gives "abcdefg"
the start | text abcdefg | 9 #1 0 6 | gives "abcdef"
the rest | text abcdefg | 9 #1 1 6 | gives "bcdefg"
over a cell's border | text abcdefghijklm | 9 #1 5 7 | gives "fghijkl"
the first unit | text abc | 9 #1 0 1 | gives "a"
the last unit | text abc | 9 #1 2 1 | gives "c"
none at the start | text abc | 9 #1 0 0 | gives ""
none at the end | text abc | 9 #1 3 0 | gives ""
none of none | text | 9 #1 0 0 | gives ""
half of a pair | units 97 55357 56832 | 9 #1 0 2 | gives "a<55357>"
before the start | text abc | 9 #1 -1 1 | throws ArgumentOutOfRange
fewer than none | text abc | 9 #1 1 -1 | throws ArgumentOutOfRange
past the end by one | text abc | 9 #1 2 2 | throws ArgumentOutOfRange
none past the end | text abc | 9 #1 4 0 | throws ArgumentOutOfRange
more than all | text abc | 9 #1 0 4 | throws ArgumentOutOfRange
the most numbers | text abc | 9 #1 2147483647 2147483647 | throws ArgumentOutOfRange
the least numbers | text abc | 9 #1 -2147483648 -2147483648 | throws ArgumentOutOfRange
a part of null | | 9 null 0 0 | throws NullReference
null before the range | | 9 null -1 0 | throws NullReference
a part of an array | array Char 97 98 | 9 #1 0 1 | no case
a long start | text abc | 9 #1 0L 1 | no case
a null length | text abc | 9 #1 0 null | no case
no length | text abc | 9 #1 0 | no case
all chars | array Char 97 98 99 | 12 #1 0 3 | gives "abc"
six chars | array Char 97 98 99 100 101 102 103 | 12 #1 0 6 | gives "abcdef"
seven chars | array Char 97 98 99 100 101 102 103 | 12 #1 0 7 | gives "abcdefg"
chars at the end | array Char 97 98 99 | 12 #1 1 2 | gives "bc"
no chars at the end | array Char 97 98 99 | 12 #1 3 0 | gives ""
no chars of none | array Char | 12 #1 0 0 | gives ""
chars of a pair | array Char 55357 56832 65535 0 | 12 #1 0 4 | gives "<55357><56832><65535><0>"
chars before the start | array Char 97 98 99 | 12 #1 -1 1 | throws ArgumentOutOfRange
fewer chars than none | array Char 97 98 99 | 12 #1 0 -1 | throws ArgumentOutOfRange
chars past the end by one | array Char 97 98 99 | 12 #1 1 3 | throws ArgumentOutOfRange
no chars past the end | array Char 97 98 99 | 12 #1 4 0 | throws ArgumentOutOfRange
the most chars | array Char 97 98 99 | 12 #1 2147483647 2147483647 | throws ArgumentOutOfRange
chars of null | | 12 null 0 0 | throws ArgumentNull
null before the chars' range | | 12 null -1 0 | throws ArgumentNull
chars of a string | text abc | 12 #1 0 1 | no case
chars of ints | array I4 97 98 | 12 #1 0 1 | no case
chars of bytes | array U1 97 98 | 12 #1 0 1 | no case
chars of references | array String null | 12 #1 0 1 | no case
chars from a long | array Char 97 | 12 #1 0L 1 | no case
chars to a long | array Char 97 | 12 #1 0 1L | no case
a char | | 13 97 | gives "a"
the char of an int's low half | | 13 65633 | gives "a"
the char of a negative int | | 13 -1 | gives "<65535>"
half of a pair as a char | | 13 55357 | gives "<55357>"
the char 0 | | 13 0 | gives "<0>"
a char of a long | | 13 97L | no case
a char of null | | 13 null | no case
no char | | 13 | no case
"#;

/// `String.Equals`, 10, and `Compare`, 11.
const ORDERS: &str = r#"
the same units | text abcdefg, text abcdefg | 10 #1 #2 | gives 1
the same string | text abc | 10 #1 #1 | gives 1
no units | text, text | 10 #1 #2 | gives 1
another last unit | text abcdefg, text abcdefh | 10 #1 #2 | gives 0
a front | text abcdef, text abcdefg | 10 #1 #2 | gives 0
another case | text abc, text abC | 10 #1 #2 | gives 0
null and null | | 10 null null | gives 1
null and no units | text | 10 null #1 | gives 0
no units and null | text | 10 #1 null | gives 0
a string and null | text abc | 10 #1 null | gives 0
a string and an array | text a, array Char 97 | 10 #1 #2 | no case
an array and a string | text a, array Char 97 | 10 #2 #1 | no case
null and a number | | 10 null 0 | no case
a string alone | text a | 10 #1 | no case
below | text abc, text abd | 11 #1 #2 | gives -1
above | text abd, text abc | 11 #1 #2 | gives 1
equal | text abcdefg, text abcdefg | 11 #1 #2 | gives 0
equal to itself | text abc | 11 #1 #1 | gives 0
a front is below | text abcdef, text abcdefg | 11 #1 #2 | gives -1
a front is what is below | text abcdefg, text abcdef | 11 #1 #2 | gives 1
no units before one | text, text a | 11 #1 #2 | gives -1
one before no units | text, text a | 11 #2 #1 | gives 1
the first difference | text b, text azz | 11 #1 #2 | gives 1
capitals before | text Z, text a | 11 #1 #2 | gives -1
units and not code points | units 65535, units 55357 56832 | 11 #1 #2 | gives 1
large units without sign | units 32768, units 32767 | 11 #1 #2 | gives 1
both null | | 11 null null | gives 0
null before no units | text | 11 null #1 | gives -1
no units behind null | text | 11 #1 null | gives 1
the order with an array | text a, array Char 97 | 11 #1 #2 | no case
the order of an array | text a, array Char 97 | 11 #2 #1 | no case
the order with a number | text a | 11 #1 97 | no case
the order of one | text a | 11 #1 | no case
"#;

#[test]
fn units_and_joins(rt: HostRuntime) -> Result<(), Fail> {
    run(&rt, rt.alloc(), TEXTS)
}

#[test]
fn pieces(rt: HostRuntime) -> Result<(), Fail> {
    run(&rt, rt.alloc(), PIECES)
}

#[test]
fn orders(rt: HostRuntime) -> Result<(), Fail> {
    run(&rt, rt.alloc(), ORDERS)
}
