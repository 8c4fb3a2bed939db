//! Rule 23: the entry (ECMA-335 II.15.4.1.2, II.25.3.3).

use crate::cases::cases_are_told;
use std::test::Fail;

/// Each with the entry token of the program.
const ENTRIES: &str = "
-: Main: : : 06000001
2 23 FF 0 0: none: : : 00000000
2 23 FF 0 0: a reference to a method: member | 02000002 | | Main | 00 00 01: : 0A000001
2 23 FF 0 0: a type: : : 02000002
2 23 FF 0 0: a file: : : 26000001
2 23 FF 0 0: a literal: : : 70000001
2 23 FF 0 0: a number without table: : : 00000001
2 23 FF 0 0: method 0: : : 06000000
2 23 FF 0 0: a method behind the last: : : 06000002
2 23 FF 0 0: the last of all methods: : : 06FFFFFF
-: another name: method | 96 | | Start | 00 00 01 | 06 2A: : 06000002
-: a private method: method | 91 | | Start | 00 00 01 | 06 2A: : 06000002
2 23 FF 0 0: an instance method: method | 86 | | Start | 20 00 01 | 06 2A: : 06000002
2 23 FF 0 0: an abstract method: type | 81 | 01000001 | A; method | 5C6 | | Start | 20 00 01: : 06000002
2 23 FF 0 0: a static method with this: method | 96 | | Start | 20 00 01 | 06 2A: : 06000002
-: an int: method | 96 | | Start | 00 00 08 | 06 2A: : 06000002
-: an int by its name: method | 96 | | Start | 00 00 11 25 | 06 2A: : 06000002
2 23 FF 0 0: an unsigned number: method | 96 | | Start | 00 00 09 | 06 2A: : 06000002
2 23 FF 0 0: a long: method | 96 | | Start | 00 00 0A | 06 2A: : 06000002
2 23 FF 0 0: a text: method | 96 | | Start | 00 00 0E | 06 2A: : 06000002
-: words: method | 96 | | Start | 00 01 01 1D 0E | 06 2A: : 06000002
-: words by their name: method | 96 | | Start | 00 01 01 1D 12 11 | 06 2A: : 06000002
2 23 FF 0 0: a pointer to words: method | 96 | | Start | 00 01 01 10 1D 0E | 06 2A: : 06000002
2 23 FF 0 0: a word: method | 96 | | Start | 00 01 01 0E | 06 2A: : 06000002
2 23 FF 0 0: objects: method | 96 | | Start | 00 01 01 1D 1C | 06 2A: : 06000002
2 23 FF 0 0: words and a number: method | 96 | | Start | 00 02 01 1D 0E 08 | 06 2A: : 06000002
2 23 FF 0 0: a signature without form: method | 96 | | Start | 00 00 0C | 06 2A: : 06000002
-: a method of a nested type: type | 2 | 01000001 | A; nested | 02000003 | 02000002; method | 96 | | Start | 00 00 01 | 06 2A: : 06000002
-: a method of an interface: type | A1 | | A; method | 96 | | Start | 00 00 01 | 06 2A: : 06000002
-: a method of <Module>: : is | 02 | 2 | 5 | 2: 06000001
2 23 FF 0 0: a method that no type has: : is | 02 | 1 | 5 | 2; is | 02 | 2 | 5 | 2: 06000001
";

#[test]
fn entries(rt: HostRuntime) -> Result<(), Fail> {
    cases_are_told(&rt, ENTRIES)
}
