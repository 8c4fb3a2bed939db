//! Rules 47 to 54 without the types of values: numbers of places, depths, and where the stack is to be empty (ECMA-335 III.1.7).

use crate::told::methods_are_told;
use std::test::Fail;

/// Numbers of arguments and locals (III.3.38, III.3.43).
const NUMBERS: &str = "
47 0 | an argument of none | 00 00 01 | 0E 02 26 2A
- | the argument | 00 01 01 08 | 0E 02 26 2A
47 0 | the second argument of one | 00 01 01 08 | 0E 03 26 2A
- | this | 20 00 01 | 0E 02 26 2A
47 0 | an argument behind this | 20 00 01 | 0E 03 26 2A
- | an argument and this | 20 01 01 08 | 0E 03 26 2A
- | the last argument by its byte | 20 01 01 08 | 12 0E 01 26 2A
47 0 | the argument behind the last by its byte | 20 01 01 08 | 12 0E 02 26 2A
47 0 | argument 255 | 20 01 01 08 | 12 0E FF 26 2A
- | the last argument by two bytes | 20 01 01 08 | 1A FE 09 01 00 26 2A
47 0 | an argument by its high byte | 20 01 01 08 | 1A FE 09 00 01 26 2A
- | an argument's address | 20 01 01 08 | 12 0F 01 26 2A
47 0 | an address behind the last | 20 01 01 08 | 12 0F 02 26 2A
47 0 | an address by two bytes | 20 01 01 08 | 1A FE 0A 02 00 26 2A
- | a store of an argument | 20 01 01 08 | 12 16 10 01 2A
47 1 | a store behind the last argument | 20 01 01 08 | 12 16 10 02 2A
47 1 | a store by two bytes | 20 01 01 08 | 1A 16 FE 0B 02 00 2A
47 0 | a store from an empty stack | 20 01 01 08 | 0E 10 02 2A
47 0 | a local of none | 00 00 01 | 0E 06 26 2A
47 0 | a local of a signature of none | 00 00 01 | 03 30 08 00 03 00 00 00 03 00 00 11 06 26 2A
- | the local | 00 00 01 | 03 30 08 00 03 00 00 00 02 00 00 11 06 26 2A
47 0 | the second local of one | 00 00 01 | 03 30 08 00 03 00 00 00 02 00 00 11 07 26 2A
47 0 | a local by its byte | 00 00 01 | 03 30 08 00 04 00 00 00 02 00 00 11 11 01 26 2A
- | the local by two bytes | 00 00 01 | 03 30 08 00 06 00 00 00 02 00 00 11 FE 0C 00 00 26 2A
47 0 | a local by its high byte | 00 00 01 | 03 30 08 00 06 00 00 00 02 00 00 11 FE 0C 00 01 26 2A
- | a store of the local | 00 00 01 | 03 30 08 00 03 00 00 00 02 00 00 11 16 0A 2A
47 1 | a store of the second local | 00 00 01 | 03 30 08 00 03 00 00 00 02 00 00 11 16 0B 2A
47 1 | a store of a local by its byte | 00 00 01 | 03 30 08 00 04 00 00 00 02 00 00 11 16 13 01 2A
47 1 | a store of a local by two bytes | 00 00 01 | 03 30 08 00 06 00 00 00 02 00 00 11 16 FE 0E 01 00 2A
- | the local's address | 00 00 01 | 03 30 08 00 04 00 00 00 02 00 00 11 12 00 26 2A
47 0 | a local's address behind the last | 00 00 01 | 03 30 08 00 04 00 00 00 02 00 00 11 12 01 26 2A
47 0 | a local's address by two bytes | 00 00 01 | 03 30 08 00 06 00 00 00 02 00 00 11 FE 0D 01 00 26 2A
- | the last local | 00 00 01 | 03 30 08 00 04 00 00 00 01 00 00 11 11 11 26 2A
47 0 | the local behind the last | 00 00 01 | 03 30 08 00 04 00 00 00 01 00 00 11 11 12 26 2A
";

#[test]
fn numbers(rt: HostRuntime) -> Result<(), Fail> {
    methods_are_told(&rt, NUMBERS)
}

/// Too few, too many, and depths that differ (III.1.7.4, III.1.7.5).
const DEPTHS: &str = "
50 0 | too few for pop | 00 00 01 | 0A 26 2A
50 0 | too few for dup | 00 00 01 | 12 25 26 26 2A
50 1 | too few for add of one | 00 00 01 | 12 16 58 26 2A
50 0 | too few for neg | 00 00 01 | 0E 65 26 2A
50 0 | too few for a conversion | 00 00 01 | 0E 69 26 2A
50 0 | too few for a branch | 00 00 01 | 0E 2D 00 2A
50 1 | too few for a comparing branch of one | 00 00 01 | 12 16 2E 00 2A
50 0 | too few for a switch | 00 00 01 | 1A 45 00 00 00 00 2A
50 0 | too few for throw | 00 00 01 | 06 7A
50 1 | too few for a call of one | 00 00 01 | 22 16 28 06 00 00 06 26 2A
50 0 | too few for a call without this | 00 00 01 | 1A 28 04 00 00 06 2A
50 0 | too few for newobj without its argument | 00 00 01 | 1E 73 03 00 00 06 26 2A
50 1 | too few for stfld of one | 00 00 01 | 1E 14 7D 01 00 00 04 2A
50 0 | too few for ldfld | 00 00 01 | 1E 7B 01 00 00 04 26 2A
50 2 | too few for stelem of two | 00 00 01 | 12 14 16 9E 2A
50 0 | too few for newarr | 00 00 01 | 1E 8D 06 00 00 01 26 2A
50 0 | too few for box | 00 00 01 | 1E 8C 06 00 00 01 26 2A
50 0 | too few for stsfld | 00 00 01 | 1A 80 06 00 00 04 2A
50 0 | too few for castclass | 00 00 01 | 1E 74 03 00 00 02 26 2A
50 0 | too few for ret | 00 00 08 | 06 2A
- | ret of a value | 00 00 08 | 0A 16 2A
50 2 | code that nothing reaches begins with nothing | 00 00 01 | 12 2B 01 26 2A
- | code that nothing reaches | 00 00 01 | 12 2B 01 00 2A
50 1 | behind ret | 00 00 01 | 0E 2A 26 2A
50 2 | behind throw | 00 00 01 | 12 14 7A 26 2A
50 3 | behind a branch with values | 00 00 01 | 1E 16 2B 02 26 2A 26 2A
- | one for a max stack of 1 | 00 00 01 | 03 30 01 00 03 00 00 00 00 00 00 00 16 26 2A
51 1 | two for a max stack of 1 | 00 00 01 | 03 30 01 00 05 00 00 00 00 00 00 00 16 16 26 26 2A
51 0 | one for a max stack of 0 | 00 00 01 | 03 30 00 00 03 00 00 00 00 00 00 00 16 26 2A
- | a max stack of 0 | 00 00 01 | 03 30 00 00 01 00 00 00 00 00 00 00 2A
51 1 | dup for a max stack of 1 | 00 00 01 | 03 30 01 00 05 00 00 00 00 00 00 00 16 25 26 26 2A
- | add for a max stack of 2 | 00 00 01 | 03 30 02 00 05 00 00 00 00 00 00 00 16 16 58 26 2A
51 0 | newobj for a max stack of 0 | 00 00 01 | 03 30 00 00 07 00 00 00 00 00 00 00 73 02 00 00 06 26 2A
51 0 | a result for a max stack of 0 | 00 00 01 | 03 30 00 00 07 00 00 00 00 00 00 00 28 0A 00 00 06 26 2A
- | no result for a max stack of 0 | 00 00 01 | 03 30 00 00 06 00 00 00 00 00 00 00 28 01 00 00 06 2A
- | eight for a tiny header | 00 00 01 | 46 16 16 16 16 16 16 16 16 26 26 26 26 26 26 26 26 2A
51 8 | nine for a tiny header | 00 00 01 | 4E 16 16 16 16 16 16 16 16 16 26 26 26 26 26 26 26 26 26 2A
51 2 | a catch for a max stack of 0 | 00 00 01 | 0B 30 00 00 06 00 00 00 00 00 00 00 DE 03 26 DE 00 2A 00 00 01 10 00 00 00 00 00 00 02 02 00 03 01 00 00 01
- | a catch for a max stack of 1 | 00 00 01 | 0B 30 01 00 06 00 00 00 00 00 00 00 DE 03 26 DE 00 2A 00 00 01 10 00 00 00 00 00 00 02 02 00 03 01 00 00 01
- | a finally for a max stack of 0 | 00 00 01 | 0B 30 00 00 04 00 00 00 00 00 00 00 DE 01 DC 2A 01 10 00 00 02 00 00 00 02 02 00 01 01 00 00 01
51 2 | a catch that throws again for a max stack of 0 | 00 00 01 | 0B 30 00 00 05 00 00 00 00 00 00 00 DE 02 FE 1A 2A 00 00 00 01 10 00 00 00 00 00 00 02 02 00 02 01 00 00 01
50 0 | too few before too many | 00 00 01 | 03 30 00 00 04 00 00 00 00 00 00 00 25 26 26 2A
52 5 | a join of one and two | 00 00 08 | 1A 17 16 2D 01 18 2A
52 5 | two branches to one place | 00 00 01 | 22 16 2D 04 16 16 2D 00 2A
- | two branches of equal depths | 00 00 01 | 1E 16 2D 03 16 2D 00 2A
52 2 | back to fewer | 00 00 01 | 1A 16 16 2D FC 26 2A
- | back to as many | 00 00 01 | 1A 16 16 2D FD 26 2A
52 2 | back to more | 00 00 01 | 12 16 26 2B FD
52 5 | back to code that nothing else reaches | 00 00 01 | 1E 2B 02 00 2A 16 2B FB
- | back to code that nothing else reaches, with nothing | 00 00 01 | 1E 2B 02 00 2A 00 2B FB
52 2 | a switch to two depths | 00 00 01 | 36 16 16 45 01 00 00 00 F5 FF FF FF 26 2A
- | values over a branch | 00 00 01 | 16 16 2B 00 26 2A
52 4 | one that falls and none that comes | 00 00 01 | 1A 16 2D 01 16 26 2A
- | ldnull of both sides | 00 00 01 | 26 16 2D 03 14 2B 01 14 26 2A
";

#[test]
fn depths(rt: HostRuntime) -> Result<(), Fail> {
    methods_are_told(&rt, DEPTHS)
}

/// Where the stack is to be empty, and what it has where a handler begins (III.1.7.5).
const EMPTIED: &str = "
54 1 | a try with a value | 00 00 01 | 0B 30 08 00 07 00 00 00 00 00 00 00 16 DE 03 26 DE 00 2A 00 01 10 00 00 00 00 01 00 02 03 00 03 01 00 00 01
54 3 | a branch to a try with a value | 00 00 01 | 0B 30 08 00 09 00 00 00 00 00 00 00 16 2B 00 DE 03 26 DE 00 2A 00 00 00 01 10 00 00 00 00 03 00 02 05 00 03 01 00 00 01
- | a try behind a value that is gone | 00 00 01 | 0B 30 08 00 08 00 00 00 00 00 00 00 16 26 DE 03 26 DE 00 2A 01 10 00 00 00 00 02 00 02 04 00 03 01 00 00 01
54 2 | a try in a catch with the exception | 00 00 01 | 0B 30 08 00 0A 00 00 00 00 00 00 00 DE 07 DE 03 26 DE 00 DE 00 2A 00 00 01 1C 00 00 00 00 02 00 02 04 00 03 01 00 00 01 00 00 00 00 02 02 00 07 01 00 00 01
54 1 | ret of nothing with a value | 00 00 01 | 0A 16 2A
54 2 | ret of a value with another | 00 00 08 | 0E 16 16 2A
54 1 | a constructor's ret | 20 00 01 | 0A 02 2A
54 3 | endfinally with a value | 00 00 01 | 0B 30 08 00 05 00 00 00 00 00 00 00 DE 02 16 DC 2A 00 00 00 01 10 00 00 02 00 00 00 02 02 00 02 01 00 00 01
- | leave with a value | 00 00 01 | 0B 30 08 00 07 00 00 00 00 00 00 00 16 DE 03 26 DE 00 2A 00 01 10 00 00 00 00 00 00 03 03 00 03 01 00 00 01
- | leave of a catch with its exception | 00 00 01 | 0B 30 08 00 05 00 00 00 00 00 00 00 DE 02 DE 00 2A 00 00 00 01 10 00 00 00 00 00 00 02 02 00 02 01 00 00 01
- | throw with a value | 00 00 01 | 0E 16 14 7A
- | rethrow with the exception | 00 00 01 | 0B 30 08 00 05 00 00 00 00 00 00 00 DE 02 FE 1A 2A 00 00 00 01 10 00 00 00 00 00 00 02 02 00 02 01 00 00 01
- | an exception for throw | 00 00 01 | 0B 30 08 00 04 00 00 00 00 00 00 00 DE 01 7A 2A 01 10 00 00 00 00 00 00 02 02 00 01 0C 00 00 02
53 2 | a caught object for throw | 00 00 01 | 0B 30 08 00 04 00 00 00 00 00 00 00 DE 01 7A 2A 01 10 00 00 00 00 00 00 02 02 00 01 01 00 00 01
53 3 | a catch begins with the class alone | 00 00 01 | 0B 30 08 00 08 00 00 00 00 00 00 00 DE 05 25 58 26 DE 00 2A 01 10 00 00 00 00 00 00 02 02 00 05 01 00 00 01
50 2 | a finally begins with nothing | 00 00 01 | 0B 30 08 00 05 00 00 00 00 00 00 00 DE 02 26 DC 2A 00 00 00 01 10 00 00 02 00 00 00 02 02 00 02 01 00 00 01
";

#[test]
fn emptied(rt: HostRuntime) -> Result<(), Fail> {
    methods_are_told(&rt, EMPTIED)
}

/// The first offset, and the lowest rule there.
const LOWEST: &str = "
45 0 | 45 before 50 | 00 00 08 | 0B 30 08 00 05 00 00 00 00 00 00 00 2A 26 DE 00 2A 00 00 00 01 10 00 00 00 00 00 00 01 01 00 03 01 00 00 01
47 4 | 47 before a join of two depths | 00 00 01 | 1E 16 2D 01 16 02 26 2A
46 4 | 46 before a join of two depths | 00 00 01 | 2E 16 2D 01 16 28 0A 00 00 0A 26 2A
52 4 | a join of two depths before too many | 00 00 01 | 32 16 2D 01 16 16 16 16 26 26 26 26 2A
47 7 | 47 before a join without a type | 00 00 01 | 2E 16 2D 03 14 2B 01 16 02 26 26 2A
54 1 | 54 at a try before what follows | 00 00 01 | 0B 30 08 00 08 00 00 00 00 00 00 00 16 00 DE 03 26 DE 00 2A 01 10 00 00 00 00 01 00 03 04 00 03 01 00 00 01
53 2 | 53 before 54 | 00 00 01 | 0B 30 08 00 09 00 00 00 00 00 00 00 16 14 58 DE 03 26 DE 00 2A 00 00 00 01 10 00 00 00 00 02 00 03 05 00 03 01 00 00 01
46 1 | 46 before 54 | 00 00 01 | 0B 30 08 00 0C 00 00 00 00 00 00 00 16 28 0A 00 00 0A DE 03 26 DE 00 2A 01 10 00 00 00 00 01 00 07 08 00 03 01 00 00 01
51 1 | 51 before 54 | 00 00 01 | 0B 30 01 00 09 00 00 00 00 00 00 00 16 16 26 DE 03 26 DE 00 2A 00 00 00 01 10 00 00 00 00 01 00 04 05 00 03 01 00 00 01
51 1 | 51 before 53 | 00 00 01 | 03 30 01 00 05 00 00 00 00 00 00 00 14 25 58 26 2A
45 2 | 45 before 53 of the instruction | 00 00 01 | 0B 30 08 00 0C 00 00 00 02 00 00 11 12 00 2D 01 00 00 DE 03 26 DE 00 2A 01 10 00 00 00 00 04 00 04 08 00 03 01 00 00 01
53 2 | the first offset first | 00 00 01 | 26 16 14 58 28 0A 00 00 0A 2A
46 0 | a lower offset before a lower rule | 00 00 01 | 1E 28 0A 00 00 0A 26 2A
53 2 | 53 at a lower offset than 45 | 00 00 01 | 1E 16 14 58 26 DE 00 2A
45 0 | 45 of an edge before 46 | 00 00 01 | 22 DE 00 28 0A 00 00 0A 2A
45 1 | 45 of falling before 46 | 00 00 01 | 0B 30 08 00 0A 00 00 00 00 00 00 00 00 28 0A 00 00 0A 26 DE 00 2A 00 00 01 10 00 00 00 00 00 00 01 06 00 03 01 00 00 01
";

#[test]
fn lowest(rt: HostRuntime) -> Result<(), Fail> {
    methods_are_told(&rt, LOWEST)
}
