ghost use Rattle.std.specs.Prelude.{◌≤◌};

use cil_layout::rows::{METHOD_DEF, TYPE_DEF};
use cil_listing::assembly::open;
use made_assembly::made;
use std::alloc::Global;
use std::test::Fail;

/// The rows of TypeDef and MethodDef of a made assembly; none where a rule of 1 to 13 is broken.
fn rows_of(alloc: Global, n: u32) -> Option<(u32, u32)>
    requires low { 1 ≤ n }
    requires high { n ≤ 2000 }
{
    let file = made(alloc, n).ok()?;
    let assembly = open(file.as_slice()).ok()?;
    Some((
        assembly.tables.rows(TYPE_DEF),
        assembly.tables.rows(METHOD_DEF),
    ))
}

#[test]
fn made_assemblies_are_read(rt: HostRuntime) -> Result<(), Fail> {
    assert_eq!(rt; rows_of(rt.alloc(), 1), Some((3, 2)));
    assert_eq!(rt; rows_of(rt.alloc(), 3), Some((5, 4)));
    assert_eq!(rt; rows_of(rt.alloc(), 2000), Some((2002, 2001)));
    Ok(())
}
