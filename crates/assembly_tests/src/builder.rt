use assembly_rows::lines::add_lines;
use cil_build::build::{Build, BuildRefusal};
use cil_layout::rows::TABLES;
use cil_listing::assembly::{open, text};
use cil_listing::members::listing;
use cil_rows::{ClassLayoutRow, FieldRvaRow, MemberRefRow, NestedClassRow, find_row};
use cil_tables::Tables;
use plain_types::fault::NoMemory;
use std::alloc::Global;
use std::test::Fail;

/// One row of each kind, and data.
const EVERY_KIND: &str = "
assembly | | | mscorlib | 04 03 01 00
reference | 23000001 | | System Object
member | 01000001 | | ToString | 20 00 0E
spec | | | | 1D 08
locals | | | | 07 01 08
type | 00100001 | 01000001 | Ns Outer
field | 0116 | | data | 06 08 | 01 02 03 04
method | 0096 | | Main | 00 00 01 | 06 2A
type | 00100001 | 01000001 | Ns Inner
interface | 02000002 | 02000003
nested | 02000003 | 02000002
layout | 4 | 02000003
";

/// One row of each kind, data, a literal and an entry.
fn every_kind(alloc: Global) -> Result<Vec<u8>, Fail> {
    let mut build = Build::new(alloc, "All", [1, 2, 3, 4])?;
    add_lines(&mut build, alloc, EVERY_KIND)?;
    let _literal = build
        .user_text(alloc, &[0x68, 0x69])
        .ok()
        .ok_or("there is room")?;
    build.set_entry(0x0600_0001);
    Ok(build.finish(alloc).ok().ok_or("there is room")?)
}

/// How many rows each table has that the builder makes.
fn counts(tables: &Tables<'_>) -> [u32; 14] {
    TABLES.map(|table| tables.rows(table))
}

/// Whether a literal at a place of `#US` has these bytes.
fn is_literal(tables: &Tables<'_>, place: u32, bytes: &[u8]) -> bool {
    tables.user_string(place) == Some(bytes)
}

#[test]
fn every_kind_of_row_is_read_back(rt: HostRuntime) -> Result<(), Fail> {
    let file = every_kind(rt.alloc())?;
    let assembly = open(file.as_slice()).ok().ok_or("no rule is broken")?;
    let tables = &assembly.tables;
    assert_eq!(rt; counts(tables), [1, 1, 3, 1, 1, 1, 1, 1, 1, 1, 1, 1, 1, 1]);
    let lines = listing(rt.alloc(), &assembly).ok().ok_or("it is listed")?;
    let expected = "<Module>\n\
        Ns.Outer : System.Object\n  public static int data\n  public static void Main()\n\
        Ns.Inner : System.Object\n\
        Ns.Outer implements Ns.Inner\n";
    assert_eq!(rt; lines.as_str(), expected);
    assert_eq!(rt; assembly.pe.entry(), 0x0600_0001);
    assert!(rt; is_literal(tables, 1, &[0x68, 0, 0x69, 0]));
    Ok(())
}

#[test]
fn data_and_references_are_read_back(rt: HostRuntime) -> Result<(), Fail> {
    let file = every_kind(rt.alloc())?;
    let assembly = open(file.as_slice()).ok().ok_or("no rule is broken")?;
    let tables = &assembly.tables;
    let data = find_row::<FieldRvaRow>(tables, 1).ok_or("there is a row of data")?;
    assert_eq!(rt; data.field, 1);
    assert_eq!(rt;
        assembly.pe.at_rva(data.rva, 4),
        Some([1, 2, 3, 4].as_slice())
    );
    let member = find_row::<MemberRefRow>(tables, 1).ok_or("there is a member")?;
    assert_eq!(rt; (member.class, text(tables, member.name)), (9, "ToString"));
    assert_eq!(rt;
        tables.blob(member.signature),
        Some([0x20, 0, 0x0E].as_slice())
    );
    let nested = find_row::<NestedClassRow>(tables, 1).ok_or("there is a nested type")?;
    assert_eq!(rt; (nested.nested, nested.enclosing), (3, 2));
    let layout = find_row::<ClassLayoutRow>(tables, 1).ok_or("there is a layout")?;
    assert_eq!(rt;
        (layout.packing_size, layout.class_size, layout.parent),
        (0, 4, 3)
    );
    Ok(())
}

fn units(alloc: Global, count: usize) -> Result<Vec<u16>, NoMemory> {
    let mut units = Vec::new(alloc);
    for _ in 0..count {
        units.push(0x41)?;
    }
    Ok(units)
}

#[test]
fn a_literal_that_is_too_heavy_is_not_taken(rt: HostRuntime) -> Result<(), Fail> {
    let long = units(rt.alloc(), 2_097_152).ok().ok_or("there is memory")?;
    let mut b = Build::new(rt.alloc(), "Big", [1, 0, 0, 0])
        .ok()
        .ok_or("there is memory")?;
    let refused = b.user_text(rt.alloc(), long.as_slice());
    assert_eq!(rt; refused, Err(BuildRefusal::Full));
    let taken = b.user_text(rt.alloc(), &[0x41]);
    assert_eq!(rt; taken, Ok(0x7000_0001));
    Ok(())
}
