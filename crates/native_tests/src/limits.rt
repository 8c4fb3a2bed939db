//! Natives in memories with just enough cells for their new string, and with one fewer.

use crate::cases::run;
use std::test::Fail;

/// The last column has the cells. A string takes one, and one for each 6 units begun; an object, an empty array and an array of one
/// int32 take 1, 1 and 2, a box 2. What throws, or makes nothing, ends the same in a memory without a free cell.
const LIMITS: &str = r#"
a name fits | object Class@0 | 1 #1 | gives "Ns.Name" | 4
a name one short | object Class@0 | 1 #1 | spent | 3
a name of six units fits | object Class@1 | 1 #1 | gives "Ns.Six" | 3
a name of six units one short | object Class@1 | 1 #1 | spent | 2
an array's name fits | array Class@1 | 1 #1 | gives "Ns.Six[]" | 4
an array's name one short | array Class@1 | 1 #1 | spent | 3
no name fits | object Class@5 | 1 #1 | gives "" | 2
no name one short | object Class@5 | 1 #1 | spent | 1
null's name without a cell | | 1 null | throws NullReference | 0
an enum's text fits | box I4@3 -12345 | 3 #1 | gives "-12345" | 4
an enum's text one short | box I4@3 -12345 | 3 #1 | spent | 3
equal enums without a cell | box I4@3 7 | 2 #1 #1 | gives 1 | 2
a copy without a cell | array I4 1 2 3 | 5 #1 0 #1 1 2 | gives nothing: 1 1 2 | 2
a unit without a cell | text abc | 7 #1 0 | gives 97 | 2
six units fit | text abc, text def | 8 #1 #2 | gives "abcdef" | 6
six units one short | text abc, text def | 8 #1 #2 | spent | 5
seven units fit | text abcd, text efg | 8 #1 #2 | gives "abcdefg" | 7
seven units one short | text abcd, text efg | 8 #1 #2 | spent | 6
null twice fits | | 8 null null | gives "" | 1
null twice without a cell | | 8 null null | spent | 0
no case without a cell | array Char 97 | 8 #1 null | no case | 2
a part fits | text abcdefgh | 9 #1 1 7 | gives "bcdefgh" | 6
a part one short | text abcdefgh | 9 #1 1 7 | spent | 5
a shorter part fits there | text abcdefgh | 9 #1 2 6 | gives "cdefgh" | 5
no part one short | text abc | 9 #1 0 0 | spent | 2
a wrong part without a cell | text abc | 9 #1 0 4 | throws ArgumentOutOfRange | 2
the order without a cell | text abc | 11 #1 null | gives 1 | 2
chars fit | array Char 97 98 99 | 12 #1 0 3 | gives "abc" | 4
chars one short | array Char 97 98 99 | 12 #1 0 3 | spent | 3
wrong chars without a cell | array Char 97 98 99 | 12 #1 0 4 | throws ArgumentOutOfRange | 2
a char fits | | 13 97 | gives "a" | 2
a char one short | | 13 97 | spent | 1
a number fits | | 14 123456L | gives "123456" | 2
a number one short | | 14 123456L | spent | 1
a longer number fits | | 15 1234567L | gives "1234567" | 3
a longer number one short | | 15 1234567L | spent | 2
data without a cell | array U1 0 0 | 16 #1 $0 | gives nothing: 1 2 | 2
a line without a cell | text abc | 17 #1 | prints #1 | 2
"#;

#[test]
fn cells(rt: HostRuntime) -> Result<(), Fail> {
    run(&rt, rt.alloc(), LIMITS)
}
