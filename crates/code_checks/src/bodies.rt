//! Rules 40 to 43: headers, sections, instructions and targets (ECMA-335 II.25.4, III.1.2.1).

use crate::told::methods_are_told;
use std::test::Fail;

/// Headers, sizes and the signature of locals (II.25.4.1 to II.25.4.4).
const HEADERS: &str = "
- | a tiny header | 00 00 01 | 06 2A
- | a fat header | 00 00 01 | 03 30 08 00 01 00 00 00 00 00 00 00 2A
40 0 | a header of kind 0 | 00 00 01 | 04 2A
40 0 | a header of kind 1 | 00 00 01 | 05 2A
40 0 | a fat header of two words | 00 00 01 | 03 20 08 00 01 00 00 00 00 00 00 00 2A
40 0 | a fat header of four words | 00 00 01 | 03 40 08 00 01 00 00 00 00 00 00 00 00 00 00 00 2A
- | flags that tell nothing | 00 00 01 | F7 3F 08 00 01 00 00 00 00 00 00 00 2A
40 0 | a fat header one byte behind its place | 00 00 01 | 00 03 30 08 00 01 00 00 00 00 00 00 00 2A | 1
40 0 | a fat header two bytes behind its place | 00 00 01 | 00 00 03 30 08 00 01 00 00 00 00 00 00 00 2A | 2
- | a fat header four bytes on | 00 00 01 | 00 00 00 00 03 30 08 00 01 00 00 00 00 00 00 00 2A | 4
- | a tiny header at an odd place | 00 00 01 | 00 06 2A | 1
40 0 | a body in no section | 00 00 01 | 06 2A | 100000
40 0 | more code than the section has | 00 00 01 | 03 30 08 00 FF FF FF 00 00 00 00 00 2A
40 0 | the largest size | 00 00 01 | 03 30 08 00 FF FF FF FF 00 00 00 00 2A
42 0 | a tiny body without code | 00 00 01 | 02
42 0 | a fat body without code | 00 00 01 | 03 30 08 00 00 00 00 00 00 00 00 00
- | locals | 00 00 01 | 03 30 08 00 01 00 00 00 02 00 00 11 2A
- | a signature of no locals | 00 00 01 | 03 30 08 00 01 00 00 00 03 00 00 11 2A
40 0 | locals of row 0 | 00 00 01 | 03 30 08 00 01 00 00 00 00 00 00 11 2A
40 0 | locals behind the last | 00 00 01 | 03 30 08 00 01 00 00 00 04 00 00 11 2A
40 0 | locals of the last row of all | 00 00 01 | 03 30 08 00 01 00 00 00 FF FF FF 11 2A
40 0 | locals of another table | 00 00 01 | 03 30 08 00 01 00 00 00 01 00 00 1B 2A
40 0 | locals that are a type | 00 00 01 | 03 30 08 00 01 00 00 00 01 00 00 02 2A
";

#[test]
fn headers(rt: HostRuntime) -> Result<(), Fail> {
    methods_are_told(&rt, HEADERS)
}

/// Sections behind the code (II.25.4.5).
const SECTIONS: &str = "
- | a section without clauses | 00 00 01 | 0B 30 08 00 01 00 00 00 00 00 00 00 2A 00 00 00 01 04 00 00
- | a fat section without clauses | 00 00 01 | 0B 30 08 00 01 00 00 00 00 00 00 00 2A 00 00 00 41 04 00 00
- | two sections | 00 00 01 | 0B 30 08 00 01 00 00 00 00 00 00 00 2A 00 00 00 81 04 00 00 01 04 00 00
- | a fat section and a small one | 00 00 01 | 0B 30 08 00 01 00 00 00 00 00 00 00 2A 00 00 00 C1 04 00 00 01 04 00 00
- | the bytes behind a small section's size | 00 00 01 | 0B 30 08 00 01 00 00 00 00 00 00 00 2A 00 00 00 01 04 FF FF
40 0 | a section of kind 0 | 00 00 01 | 0B 30 08 00 01 00 00 00 00 00 00 00 2A 00 00 00 00 04 00 00
40 0 | a section of kind 2 | 00 00 01 | 0B 30 08 00 01 00 00 00 00 00 00 00 2A 00 00 00 02 04 00 00
40 0 | a fat section of kind 0 | 00 00 01 | 0B 30 08 00 01 00 00 00 00 00 00 00 2A 00 00 00 40 04 00 00
40 0 | a second section of kind 0 | 00 00 01 | 0B 30 08 00 01 00 00 00 00 00 00 00 2A 00 00 00 81 04 00 00 00 00 00 00
40 0 | a section of size 0 | 00 00 01 | 0B 30 08 00 01 00 00 00 00 00 00 00 2A 00 00 00 01 00 00 00
40 0 | a section of no whole clauses | 00 00 01 | 0B 30 08 00 01 00 00 00 00 00 00 00 2A 00 00 00 01 0C 00 00 00 00 00 00 00 00 00 00
40 0 | a fat section of small clauses | 00 00 01 | 0B 30 08 00 01 00 00 00 00 00 00 00 2A 00 00 00 41 10 00 00 00 00 00 00 00 00 00 00 00 00 00 00
40 0 | a section behind its section of the file | 00 00 01 | 0B 30 08 00 01 00 00 00 00 00 00 00 2A 00 00 00 41 FC FF FF
40 0 | a section of no size behind one | 00 00 01 | 0B 30 08 00 01 00 00 00 00 00 00 00 2A 00 00 00 81 04 00 00 01 02 00 00
- | what looks like a section without the flag | 00 00 01 | 03 30 08 00 01 00 00 00 00 00 00 00 2A 00 00 00 00 00 00 00
- | a section behind two bytes of code | 00 00 01 | 0B 30 08 00 02 00 00 00 00 00 00 00 00 2A 00 00 01 04 00 00
";

#[test]
fn sections(rt: HostRuntime) -> Result<(), Fail> {
    methods_are_told(&rt, SECTIONS)
}

/// Instructions, each whole, and the end (III.1.2.1, III.1.7.1).
const INSTRUCTIONS: &str = "
- | an instruction of each length | 00 01 01 08 | 6A 00 1F 05 26 20 00 00 00 00 26 21 00 00 00 00 00 00 00 00 26 FE 09 00 00 26 2A
41 0 | break | 00 00 01 | 06 01
41 0 | a float | 00 00 01 | 1A 22 00 00 00 00 2A
41 0 | a jump to a method | 00 00 01 | 1A 27 01 00 00 06 2A
41 0 | an indirect call | 00 00 01 | 1A 29 01 00 00 11 2A
41 0 | a byte without instruction | 00 00 01 | 0A 24 2A
41 0 | the last byte | 00 00 01 | 0A FF 2A
41 1 | conversion to float | 00 00 01 | 12 16 6B 26 2A
41 0 | cpobj | 00 00 01 | 1A 70 01 00 00 01 2A
41 0 | mkrefany | 00 00 01 | 1A C6 01 00 00 01 2A
41 0 | ckfinite | 00 00 01 | 0A C3 2A
41 0 | ldelem of floats | 00 00 01 | 0A 98 2A
41 0 | ldelem of native numbers | 00 00 01 | 0A 97 2A
41 0 | an image's own | 00 00 01 | 0A F0 2A
41 0 | sizeof | 00 00 01 | 1E FE 1C 01 00 00 01 2A
41 0 | ldftn | 00 00 01 | 1E FE 06 01 00 00 06 2A
41 0 | initobj | 00 00 01 | 1E FE 15 01 00 00 01 2A
41 0 | localloc | 00 00 01 | 0E FE 0F 2A
41 0 | arglist | 00 00 01 | 0E FE 00 2A
41 0 | endfilter | 00 00 01 | 0A FE 11
41 0 | two bytes without instruction | 00 00 01 | 0E FE FF 2A
41 0 | prefix volatile. | 00 00 01 | 0E FE 13 2A
41 0 | prefix unaligned. | 00 00 01 | 12 FE 12 01 2A
41 0 | prefix tail. | 00 00 01 | 0E FE 14 2A
41 0 | prefix constrained. | 00 00 01 | 1E FE 16 06 00 00 01 2A
41 0 | prefix readonly. | 00 00 01 | 0E FE 1E 2A
41 2 | behind others | 00 00 01 | 12 00 00 01 2A
41 1 | in code that nothing reaches | 00 00 01 | 0E 2A 01 2A
41 1 | before a cut instruction | 00 00 01 | 12 00 01 20 00
41 2 | before a target | 00 00 01 | 12 2B 7F 01 2A
41 1 | a target into it | 00 00 01 | 26 00 FE 1C 01 00 00 01 2B F7
42 0 | a cut number | 00 00 01 | 12 20 00 00 00
42 0 | a cut byte | 00 00 01 | 06 1F
42 0 | a cut long | 00 00 01 | 22 21 00 00 00 00 00 00 00
42 0 | a cut token | 00 00 01 | 12 28 01 00 00
42 0 | a cut argument's number | 00 00 01 | 0E FE 09 00
42 0 | a cut branch | 00 00 01 | 06 2B
42 0 | the first of two bytes | 00 00 01 | 06 FE
42 1 | a cut switch's count | 00 00 01 | 16 16 45 01 00 00
42 1 | a cut switch | 00 00 01 | 26 16 45 01 00 00 00 00 00 00
42 1 | a switch of all numbers | 00 00 01 | 1E 16 45 FF FF FF FF 2A
42 1 | a switch whose targets come round | 00 00 01 | 1E 16 45 FF FF FF 3F 2A
42 1 | a switch of no targets at the end | 00 00 01 | 1A 16 45 00 00 00 00
- | a switch of no targets | 00 00 01 | 1E 16 45 00 00 00 00 2A
42 0 | the end is reached | 00 00 01 | 06 00
42 1 | the end is reached behind one | 00 00 01 | 0A 16 26
42 1 | the end is reached by a conditional branch | 00 00 01 | 0E 16 2D FD
42 0 | the end is reached by a call | 00 00 01 | 16 28 01 00 00 06
42 1 | a cut instruction in code that nothing reaches | 00 00 01 | 0E 2A 20 00
42 3 | the end before a target | 00 00 01 | 12 2B 7F 00 00
- | a branch ends the code | 00 00 01 | 0A 2B FE
- | a long branch ends the code | 00 00 01 | 16 38 FB FF FF FF
- | throw ends the code | 00 00 01 | 0A 14 7A
";

#[test]
fn instructions(rt: HostRuntime) -> Result<(), Fail> {
    methods_are_told(&rt, INSTRUCTIONS)
}

/// Targets of branches (III.1.7.2).
const TARGETS: &str = "
- | the next instruction | 00 00 01 | 0E 2B 00 2A
43 0 | the middle of an instruction | 00 00 01 | 22 2B 01 20 00 00 00 00 2A
43 0 | the second byte of an instruction | 00 01 01 08 | 1E 2B 01 FE 09 00 00 2A
43 0 | the branch's own operand | 00 00 01 | 0E 2B FF 2A
43 0 | the end of the code | 00 00 01 | 0E 2B 01 2A
43 0 | behind the end | 00 00 01 | 0E 2B 7F 2A
43 0 | before the start | 00 00 01 | 0E 2B FC 2A
43 0 | before the start, a long one | 00 00 01 | 1A 38 00 00 00 80 2A
43 0 | behind the end, a long one | 00 00 01 | 1A 38 FF FF FF 7F 2A
43 1 | a conditional branch | 00 00 01 | 12 16 2D 01 2A
43 1 | a switch's first target | 00 00 01 | 3E 16 45 02 00 00 00 01 00 00 00 00 00 00 00 2A
43 1 | a switch's second target | 00 00 01 | 3E 16 45 02 00 00 00 00 00 00 00 01 00 00 00 2A
- | a switch's targets | 00 00 01 | 3E 16 45 02 00 00 00 00 00 00 00 F2 FF FF FF 2A
43 0 | leave | 00 00 01 | 0E DE 01 2A
43 1 | in code that nothing reaches | 00 00 01 | 12 2A 2B 05 2A
43 1 | the first of two | 00 00 01 | 1A 00 2B 7F 2B 7F 2A
43 2 | before what comes earlier by a later rule | 00 00 01 | 16 26 26 2B 7F 2A
";

#[test]
fn targets(rt: HostRuntime) -> Result<(), Fail> {
    methods_are_told(&rt, TARGETS)
}
