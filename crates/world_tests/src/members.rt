use crate::files::{file_of, id_of};
use assembly_rows::lines::change_file;
use base_lib::files;
use case_text::{Line, lines_of};
use cil_world::World;
use ecma_types::id::{FieldId, MethodId};
use std::alloc::Global;
use std::process::Abort;
use std::test::Fail;

/// A class below another, and references to members: nine of the lower class, and of the upper one, Enum, Object, String, a class that
/// isn't there and an array.
const MEMBERS: &str = "
assembly | | | mscorlib | 04 03 01 00
reference | 23000001 | | System Object
reference | 23000001 | | System Enum
reference | 23000001 | | System String
reference | 23000001 | | System Objects
spec | | | | 1D 08
type | 00100001 | 01000001 | Ns Low
field | 0006 | | count | 06 08
field | 0006 | | count | 06 1C
method | 0006 | | Run | 20 00 01 | 06 2A
method | 0016 | | Run | 00 01 01 08 | 06 2A
type | 00100001 | 02000002 | Ns High
field | 0006 | | other | 06 08
method | 0006 | | Run | 20 00 01 | 06 2A
member | 02000003 | | Run | 20 00 01
member | 02000003 | | Run | 00 01 01 08
member | 02000003 | | count | 06 08
member | 02000003 | | count | 06 1C
member | 02000003 | | Equals | 20 01 02 1C
member | 02000003 | | Run | 20 00 08
member | 02000003 | | Walk | 20 00 01
member | 02000003 | | Run | 20
member | 02000003 | | Run
member | 02000002 | | other | 06 08
member | 01000002 | | Equals | 20 01 02 1C
member | 01000001 | | .ctor | 20 00 01
member | 01000003 | | Empty | 06 0E
member | 01000004 | | Run | 20 00 01
member | 1B000001 | | Run | 20 00 01
";

/// Takes the first field and the first method from the first type behind `<Module>`: its fields and methods, and those of `<Module>`,
/// begin at the second.
const DISOWNED: &str =
    "is | 02 | 1 | 4 | 2; is | 02 | 1 | 5 | 2; is | 02 | 2 | 4 | 2; is | 02 | 2 | 5 | 2";

/// The base library, and the file with members after changes.
fn world_files(alloc: Global, changes: &str) -> Result<Vec<Vec<u8>>, Fail> {
    let mut all = files(alloc).ok().ok_or("the library is made")?;
    let mut file = file_of(alloc, "Members", [1, 0, 0, 0], MEMBERS)?;
    change_file(&mut file, alloc, changes)?;
    all.push(file)?;
    Ok(all)
}

fn field_of(alloc: Global, line: &Line<'_>) -> Result<Option<FieldId>, Fail> {
    match id_of(alloc, line, 1)? {
        Some((file, row)) => Ok(Some(FieldId { file, row })),
        None => Ok(None),
    }
}

fn method_of(alloc: Global, line: &Line<'_>) -> Result<Option<MethodId>, Fail> {
    match id_of(alloc, line, 2)? {
        Some((file, row)) => Ok(Some(MethodId { file, row })),
        None => Ok(None),
    }
}

/// Tokens of the last file of a line each, and file and row of the field and of the method that they name.
fn are_named(rt: &(impl Abort + AllocGlobal), changes: &str, cases: &str) -> Result<(), Fail> {
    let alloc = rt.alloc();
    let all = world_files(alloc, changes)?;
    assert_eq!(rt; all.len(), 3);
    let world = World::new(alloc, all.as_slice())
        .ok()
        .ok_or("no rule is broken")?;
    assert_eq!(rt; world.files(), 3);
    let lines = lines_of(alloc, cases, '|')?;
    for line in lines.as_slice() {
        let token = line.hex(0)?;
        let field = world.resolve_field(2, token).ok();
        assert_eq!(rt; field, field_of(alloc, line)?, "{token:x}");
        let method = world.resolve_method(2, token).ok();
        assert_eq!(rt; method, method_of(alloc, line)?, "{token:x}");
    }
    Ok(())
}

const NAMED: &str = "
04000001 | 2 1 | -
04000003 | 2 3 | -
04000004 | - | -
04000000 | - | -
06000001 | - | 2 1
06000003 | - | 2 3
06000004 | - | -
06000000 | - | -
0A000001 | - | 2 3
0A000002 | - | 2 2
0A000003 | 2 1 | -
0A000004 | 2 2 | -
0A000005 | - | 0 3
0A000006 | - | -
0A000007 | - | -
0A000008 | - | -
0A000009 | - | -
0A00000A | - | -
0A00000B | - | 0 7
0A00000C | - | 0 1
0A00000D | 0 1 | -
0A00000E | - | -
0A00000F | - | -
0A000010 | - | -
0A000000 | - | -
02000002 | - | -
01000001 | - | -
FFFFFFFF | - | -
";

#[test]
fn tokens_of_members(rt: HostRuntime) -> Result<(), Fail> {
    are_named(&rt, "", NAMED)
}

/// Rows that no type has are named by nothing.
const NAMED_AFTER: &str = "
04000001 | - | -
04000002 | 2 2 | -
0A000003 | - | -
06000001 | - | -
06000002 | - | 2 2
0A000002 | - | 2 2
";

#[test]
fn members_of_no_type(rt: HostRuntime) -> Result<(), Fail> {
    are_named(&rt, DISOWNED, NAMED_AFTER)
}
