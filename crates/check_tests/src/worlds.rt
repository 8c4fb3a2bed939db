//! What is told of several files: names of assemblies, references between them, and the order of files and phases.

use crate::cases::fault_of;
use crate::program::FRONT;
use crate::told::told;
use assembly_rows::lines::{Assembly, made};
use base_lib::files;
use case_text::{Line, lines_of};
use plain_types::fault::Fault;
use std::alloc::Global;
use std::process::Abort;
use std::test::Fail;

/// Files behind the base library, with `/` between them: each its name and its entry, and rows.
const FILES: &str = "
-: two: App | 06000001 / Lib | 00000000
3 22 20 1 0: one name: App | 06000001 / App | 00000000
4 22 20 1 0: one name, not side by side: App | 06000001 / Lib | 00000000 / App | 00000000
-: other letters: App | 06000001 / app | 00000000
2 22 20 1 0: the library's name: mscorlib | 06000001
2 22 20 1 0: the other library's name: Microsoft.SPOT.Native | 06000001
-: a class of the other: App | 06000001; assembly | | | Lib | 01 00 00 00; reference | 23000002 | | A; type | 100001 | 0100000A | A / Lib | 00000000; type | 100001 | 01000001 | A
-: a class of the one before: Lib | 00000000; type | 100001 | 01000001 | A / App | 06000001; assembly | | | Lib | 01 00 00 00; reference | 23000002 | | A; type | 100001 | 0100000A | A
2 24 02 3 0: another version of it: App | 06000001; assembly | | | Lib | 01 00 00 01; reference | 23000002 | | A; type | 100001 | 0100000A | A / Lib | 00000000; type | 100001 | 01000001 | A
-: itself by name: App | 06000001; assembly | | | App | 01 00 00 00; reference | 23000002 | | Program; type | 100001 | 0100000A | A
-: a class inside one of the other: App | 06000001; assembly | | | Lib | 01 00 00 00; reference | 23000002 | | A; reference | 0100000A | | B; type | 100001 | 0100000B | A / Lib | 00000000; type | 100001 | 01000001 | A; type | 2 | 01000001 | B; nested | 02000004 | 02000003
2 24 02 3 0: the same without what encloses it: App | 06000001; assembly | | | Lib | 01 00 00 00; reference | 23000002 | | B; type | 100001 | 0100000A | A / Lib | 00000000; type | 100001 | 01000001 | A; type | 2 | 01000001 | B; nested | 02000004 | 02000003
2 24 02 3 0: a circle of superclasses: App | 06000001; assembly | | | Lib | 01 00 00 00; reference | 23000002 | | B; type | 100001 | 0100000A | A / Lib | 00000000; assembly | | | App | 01 00 00 00; reference | 23000002 | | A; type | 100001 | 0100000A | B
2 25 09 1 0: a circle of interfaces: App | 06000001; assembly | | | Lib | 01 00 00 00; reference | 23000002 | | B; type | A1 | | A; interface | 02000003 | 0100000A / Lib | 00000000; assembly | | | App | 01 00 00 00; reference | 23000002 | | A; type | A1 | | B; interface | 02000003 | 0100000A
-: the library's other assembly: App | 06000001; assembly | | | Microsoft.SPOT.Native; reference | 23000002 | | Microsoft.SPOT Debug; type | 100001 | 0100000A | A
2 24 02 3 0: its class in the wrong one: App | 06000001; reference | 23000001 | | Microsoft.SPOT Debug; type | 100001 | 0100000A | A
3 24 02 3 0: a member in the first, a class in the second: App | 06000001; field | 16 | | field | 06 0C / Lib | 00000000; type | 100001 | 01000005 | A
3 23 FF 0 0: a member in the first, no entry: App | 00000000; field | 16 | | field | 06 0C / Lib | 00000000
2 30 04 2 0: a member in each: App | 06000001; field | 16 | | field | 06 08; field | 16 | | field | 06 08 / Lib | 00000000; field | 16 | | field | 06 0C
3 27 04 1 1: a member in the second: App | 06000001 / Lib | 00000000; field | 16 | | field | 06 0C
";

/// The file of an assembly that isn't changed.
fn file_of(alloc: Global, text: &str) -> Result<Vec<u8>, Fail> {
    let (head, rows) = match text.split_once(';') {
        Some(pair) => pair,
        None => (text, ""),
    };
    let head = Line::of(alloc, head, '|')?;
    let assembly = Assembly {
        name: head.text(0),
        entry: head.hex(1)?,
        front: FRONT,
        rows,
        changes: "",
    };
    made(alloc, &assembly)
}

fn told_of_files(alloc: Global, text: &str) -> Result<Option<Fault>, Fail> {
    let mut all = files(alloc)?;
    for file in text.split('/') {
        all.push(file_of(alloc, file)?)?;
    }
    told(alloc, all.as_slice())
}

fn files_are_told(rt: &(impl Abort + AllocGlobal), cases: &str) -> Result<(), Fail> {
    let alloc = rt.alloc();
    let lines = lines_of(alloc, cases, ':')?;
    for line in lines.as_slice() {
        let told = told_of_files(alloc, line.text(2))?;
        assert_eq!(rt; told, fault_of(alloc, line)?, "{}", line.text(1));
    }
    Ok(())
}

#[test]
fn files_together(rt: HostRuntime) -> Result<(), Fail> {
    files_are_told(&rt, FILES)
}

/// A file behind another, by their entry tokens: Main, none, or a type.
const PAIRS: &str = "
-: 06000001 and 00000000: First | 06000001 / Second | 00000000
-: 00000000 and 06000001: First | 00000000 / Second | 06000001
3 23 FF 0 0: 00000000 and 00000000: First | 00000000 / Second | 00000000
3 23 FF 0 0: 06000001 and 06000001: First | 06000001 / Second | 06000001
2 23 FF 0 0: 02000002 and 00000000: First | 02000002 / Second | 00000000
2 23 FF 0 0: 02000002 and 06000001: First | 02000002 / Second | 06000001
3 23 FF 0 0: 06000001 and 02000002: First | 06000001 / Second | 02000002
3 23 FF 0 0: 00000000 and 02000002: First | 00000000 / Second | 02000002
2 23 FF 0 0: 06000002 and 06000002: First | 06000002 / Second | 06000002
";

#[test]
fn entries_of_two_files(rt: HostRuntime) -> Result<(), Fail> {
    files_are_told(&rt, PAIRS)
}
