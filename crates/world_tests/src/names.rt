use crate::files::{file_of, id_of};
use base_lib::files;
use case_text::{Line, lines_of};
use cil_layout::rows::TYPE_DEF;
use cil_world::{World, WorldRefusal};
use ecma_types::id::TypeId;
use plain_types::fault::{Fault, Place, WHOLE_FILE};
use std::alloc::Global;
use std::test::Fail;

/// A type and one inside it.
const NESTED: &str = "
type | 00100001 | | Ns Outer
type | 00100001 | | Ns Inner
nested | 02000003 | 02000002
";

/// References to types of the others, or to nothing: the fourth is inside the one behind it, which stands in the other assembly, and the
/// seventh inside itself.
const REFERENCES: &str = "
assembly | | | mscorlib | 04 03 01 00
assembly | | | mscorlib | 04 03 00 00
assembly | | | Nested | 01 02 03 04
reference | 23000001 | | System Object
reference | 23000002 | | System Object
reference | 23000001 | | System Objects
reference | 01000005 | | Ns Inner
reference | 23000003 | | Ns Outer
reference | 23000003 | | Ns Inner
reference | 01000007 | | Ns Inner
type | 00100001 | | Ns Own
";

fn world_files(alloc: Global) -> Result<Vec<Vec<u8>>, Fail> {
    let mut all = files(alloc).ok().ok_or("the library is made")?;
    all.push(file_of(alloc, "Nested", [1, 2, 3, 4], NESTED)?)?;
    all.push(file_of(alloc, "References", [1, 0, 0, 0], REFERENCES)?)?;
    Ok(all)
}

/// Tokens of the last file, and the file and the row of the type that they name.
const NAMED: &str = "
01000001 | 0 2
01000002 | -
01000003 | -
01000004 | 2 3
01000005 | 2 2
01000006 | -
01000007 | -
01000008 | -
02000001 | 3 1
02000002 | 3 2
02000003 | -
02000000 | -
01000000 | -
23000001 | -
FFFFFFFF | -
";

fn type_of(alloc: Global, line: &Line<'_>) -> Result<Option<TypeId>, Fail> {
    match id_of(alloc, line, 1)? {
        Some((file, row)) => Ok(Some(TypeId { file, row })),
        None => Ok(None),
    }
}

#[test]
fn tokens_of_types(rt: HostRuntime) -> Result<(), Fail> {
    let all = world_files(rt.alloc())?;
    assert_eq!(rt; all.len(), 4);
    let world = World::new(rt.alloc(), all.as_slice())
        .ok()
        .ok_or("no rule is broken")?;
    assert_eq!(rt; world.files(), 4);
    let lines = lines_of(rt.alloc(), NAMED, '|')?;
    for line in lines.as_slice() {
        let named = world.resolve_type(3, line.hex(0)?).ok();
        assert_eq!(rt; named, type_of(rt.alloc(), line)?, "{}", line.text(0));
    }
    assert_eq!(rt; world.tables(2).rows(TYPE_DEF), 3);
    assert_eq!(rt; world.pe(2).entry(), 0);
    assert_eq!(rt; world.classes().files.len(), 4);
    assert_eq!(rt; world.classes().library, Some(0));
    Ok(())
}

#[test]
fn the_first_broken_file_is_told(rt: HostRuntime) -> Result<(), Fail> {
    let mut all = world_files(rt.alloc())?;
    assert_eq!(rt; all.len(), 4);
    all[2].truncate(63);
    all[3].truncate(10);
    let place = Place {
        file: 2,
        table: WHOLE_FILE,
        row: 0,
        offset: 0,
    };
    let refusal = WorldRefusal::File(Fault { rule: 1, place });
    match World::new(rt.alloc(), all.as_slice()) {
        Ok(_) => assert!(rt; false),
        Err(found) => assert_eq!(rt; found, refusal),
    }
    Ok(())
}
