//! Natives of arrays.

use crate::cases::run;
use std::test::Fail;

/// `Array.get_Length`, 4, and `Array.Copy`, 5: from an array and an index, to an array and an index, so many elements.
const COPIES: &str = r#"
three elements | array I4 1 2 3 | 4 #1 | gives 3
no elements | array String | 4 #1 | gives 0
null's elements | | 4 null | throws NullReference
a string's elements | text abc | 4 #1 | no case
a number's elements | | 4 3 | no case
one array to another | array I4 1 2 3, array I4 4 5 6 7 | 5 #1 1 #2 2 2 | gives nothing: 4 5 2 3
all of it | array I4 1 2 3, array I4 4 5 6 | 5 #1 0 #2 0 3 | gives nothing: 1 2 3
no elements to copy | array I4 1 2 3 | 5 #1 0 #1 1 0 | gives nothing: 1 2 3
none at both ends | array I4 1 2 3 | 5 #1 3 #1 3 0 | gives nothing: 1 2 3
onto itself | array I4 1 2 3 | 5 #1 0 #1 0 3 | gives nothing: 1 2 3
bytes upwards | array U1 1 2 3 4 5 6 7 8 | 5 #1 0 #1 2 6 | gives nothing: 1 2 1 2 3 4 5 6
bytes downwards | array U1 1 2 3 4 5 6 7 8 | 5 #1 2 #1 0 6 | gives nothing: 3 4 5 6 7 8 7 8
signed bytes upwards by one | array I1 -1 -2 -3 -4 -5 | 5 #1 0 #1 1 4 | gives nothing: -1 -1 -2 -3 -4
booleans downwards | array Bool 1 0 0 1 | 5 #1 1 #1 0 3 | gives nothing: 0 0 1 1
chars upwards | array Char 1 2 3 4 65535 6 7 8 | 5 #1 1 #1 3 5 | gives nothing: 1 2 3 2 3 4 65535 6
chars downwards | array Char 1 2 3 4 65535 6 7 8 | 5 #1 3 #1 1 5 | gives nothing: 1 4 65535 6 7 8 7 8
shorts upwards | array I2 -1 -2 -3 4 | 5 #1 0 #1 1 3 | gives nothing: -1 -1 -2 -3
ints upwards | array I4 1 -2 3 4 5 | 5 #1 0 #1 1 4 | gives nothing: 1 1 -2 3 4
ints downwards | array I4 1 -2 3 4 5 | 5 #1 1 #1 0 4 | gives nothing: -2 3 4 5 5
longs upwards | array I8 1L -2L 3L 4294967296L 5L | 5 #1 0 #1 1 4 | gives nothing: 1L 1L -2L 3L 4294967296L
longs downwards | array I8 1L -2L 3L 4294967296L 5L | 5 #1 1 #1 0 4 | gives nothing: -2L 3L 4294967296L 5L 5L
references upwards | text a, text b, array String #1 null #2 #2 | 5 #3 0 #3 1 3 | gives nothing: #1 #1 null #2
references downwards | text a, text b, array String #1 null #2 #1 | 5 #3 1 #3 0 3 | gives nothing: null #2 #1 #1
objects of a class | object Class@0, array Class@0 #1 null, array Class@0 null null | 5 #2 0 #3 1 1 | gives nothing: null #1
arrays of arrays | array I4 1, array I4[] #1, array I4[] null | 5 #2 0 #3 0 1 | gives nothing: #1
enums | array I4@3 1 2, array I4@3 0 0 | 5 #1 0 #2 0 2 | gives nothing: 1 2
from null | array I4 1 | 5 null 0 #1 0 1 | throws ArgumentNull: 1
to null | array I4 1 | 5 #1 0 null 0 1 | throws ArgumentNull
from null to null | | 5 null 0 null 0 0 | throws ArgumentNull
null before a negative number | array I4 1 | 5 null -1 #1 0 1 | throws ArgumentNull: 1
to null before a negative number | array I4 1 | 5 #1 0 null 0 -1 | throws ArgumentNull
signed and unsigned | array I4 1, array U4 2 | 5 #1 0 #2 0 1 | throws ArrayTypeMismatch: 2
chars and shorts | array Char 1, array U2 2 | 5 #1 0 #2 0 1 | throws ArrayTypeMismatch: 2
strings and objects | text a, array String #1, array Object null | 5 #2 0 #3 0 1 | throws ArrayTypeMismatch: null
objects of two classes | array Class@0 null, array Class@1 null | 5 #1 0 #2 0 1 | throws ArrayTypeMismatch: null
an enum and its number | array I4@3 1, array I4 2 | 5 #1 0 #2 0 1 | throws ArrayTypeMismatch: 2
two enums | array I4@3 1, array I4@4 2 | 5 #1 0 #2 0 1 | throws ArrayTypeMismatch: 2
arrays and elements | array I4[] null, array I4 2 | 5 #1 0 #2 0 1 | throws ArrayTypeMismatch: 2
types before a negative number | array I4 1, array U4 2 | 5 #1 -1 #2 0 1 | throws ArrayTypeMismatch: 2
types of nothing to copy | array I4, array U4 | 5 #1 0 #2 0 0 | throws ArrayTypeMismatch:
from a negative index | array I4 1 2 | 5 #1 -1 #1 0 1 | throws ArgumentOutOfRange: 1 2
to a negative index | array I4 1 2 | 5 #1 0 #1 -1 1 | throws ArgumentOutOfRange: 1 2
a negative number of elements | array I4 1 2 | 5 #1 0 #1 1 -1 | throws ArgumentOutOfRange: 1 2
the least index | array I4 1 2 | 5 #1 -2147483648 #1 0 0 | throws ArgumentOutOfRange: 1 2
a negative index before an end | array I4 1 2 | 5 #1 9 #1 -1 9 | throws ArgumentOutOfRange: 1 2
past the source | array I4 1 2, array I4 3 4 5 | 5 #1 1 #2 0 2 | throws Argument: 3 4 5
past the target | array I4 1 2 3, array I4 4 5 | 5 #1 0 #2 1 2 | throws Argument: 4 5
none from past the source | array I4 1 2 | 5 #1 3 #1 0 0 | throws Argument: 1 2
none to past the target | array I4 1 2 | 5 #1 0 #1 3 0 | throws Argument: 1 2
the most numbers | array I4 1 2 | 5 #1 2147483647 #1 2147483647 2147483647 | throws Argument: 1 2
from a string | text a, array Char 98 | 5 #1 0 #2 0 1 | no case: 98
to a string | text a, array Char 98 | 5 #2 0 #1 0 1 | no case
from null to a string | text a | 5 null 0 #1 0 1 | no case
from a long index | array I4 1 2 | 5 #1 0L #1 1 1 | no case: 1 2
to a null index | array I4 1 2 | 5 #1 0 #1 null 1 | no case: 1 2
a long number of elements | array I4 1 2 | 5 #1 0 #1 1 1L | no case: 1 2
four arguments | array I4 1 2 | 5 #1 0 #1 1 | no case: 1 2
"#;

/// `RuntimeHelpers.InitializeArray`, 16: an array and a data field. Field 0 has the bytes 1, 2, 255, 255, 254, 255, 255, 128, field 1 all of
/// these but the last, field 2 a 128, field 3 nothing.
const DATA: &str = r#"
bytes | array U1 0 0 0 0 0 0 0 0 | 16 #1 $0 | gives nothing: 1 2 255 255 254 255 255 128
signed bytes | array I1 0 0 0 0 0 0 0 0 | 16 #1 $0 | gives nothing: 1 2 -1 -1 -2 -1 -1 -128
one byte short | array U1 9 9 9 9 9 9 9 9 | 16 #1 $1 | throws Argument: 9 9 9 9 9 9 9 9
booleans | array Bool 0 0 | 16 #1 $0 | gives nothing: 1 2
chars | array Char 0 0 0 0 | 16 #1 $0 | gives nothing: 513 65535 65534 33023
shorts | array I2 0 0 0 0 | 16 #1 $0 | gives nothing: 513 -1 -2 -32513
shorts, one byte short | array I2 9 9 9 9 | 16 #1 $1 | throws Argument: 9 9 9 9
shorts, more bytes | array U2 0 0 0 | 16 #1 $1 | gives nothing: 513 65535 65534
ints | array I4 0 0 | 16 #1 $0 | gives nothing: -65023 -2130706434
ints, one byte short | array I4 9 9 | 16 #1 $1 | throws Argument: 9 9
ints, more bytes | array I4 0 | 16 #1 $1 | gives nothing: -65023
a long | array I8 0L | 16 #1 $0 | gives nothing: -9151314447111880191L
a long, one byte short | array U8 9L | 16 #1 $1 | throws Argument: 9L
two longs | array I8 9L 9L | 16 #1 $0 | throws Argument: 9L 9L
enums | array U1@3 0 | 16 #1 $2 | gives nothing: 128
no elements of no bytes | array I4 | 16 #1 $3 | gives nothing:
no elements of bytes | array I4 | 16 #1 $0 | gives nothing:
elements of no bytes | array U1 9 | 16 #1 $3 | throws Argument: 9
strings | array String null | 16 #1 $0 | throws Argument: null
no strings | array String | 16 #1 $0 | throws Argument:
objects of a class | array Class@0 null null | 16 #1 $0 | throws Argument: null null
arrays of bytes | array U1[] null | 16 #1 $0 | throws Argument: null
null | | 16 null $0 | throws NullReference
null and short bytes | | 16 null $3 | throws NullReference
a string of two | text ab | 16 #1 $0 | no case
an object | object Class@0 | 16 #1 $0 | no case
no field | array U1 9 | 16 #1 0 | no case: 9
null and no field | | 16 null null | no case
an array alone | array U1 9 | 16 #1 | no case: 9
"#;

#[test]
fn lengths_and_copies(rt: HostRuntime) -> Result<(), Fail> {
    run(&rt, rt.alloc(), COPIES)
}

#[test]
fn data_fields(rt: HostRuntime) -> Result<(), Fail> {
    run(&rt, rt.alloc(), DATA)
}
