//! The program `Hello` of the page on images, byte by byte, and a table that has too many rows.

use msspot_write::{Column, PartLiteral, PartRow, Parts, WriteRefusal, pools, write};
use plain_types::fault::Limit;
use plain_types::list::Items;
use std::alloc::Global;
use std::test::Fail;

/// A column of a table of a test.
#[derive(Clone, Copy)]
enum Cell {
    Number(u16),
    Name(&'static str),
    Signature(&'static [u8]),
    Code,
}

use Cell::{Code, Name, Number, Signature};

const NONE: Cell = Number(0xFFFF);

const ZERO: Cell = Number(0);

const ONE: Cell = Number(1);

fn items(alloc: Global, bytes: &[u8]) -> Result<Items<u8>, Fail> {
    Ok(Items::from_vec(Vec::from_slice(alloc, bytes)?))
}

fn column(alloc: Global, cell: Cell) -> Result<Column, Fail> {
    Ok(match cell {
        Number(number) => Column::Number(number),
        Name(text) => Column::Name(items(alloc, text.as_bytes())?),
        Signature(bytes) => Column::Signature(items(alloc, bytes)?),
        Code => Column::Code,
    })
}

fn part_row(alloc: Global, cells: &[Cell]) -> Result<PartRow, Fail> {
    let mut columns = Vec::new(alloc);
    for cell in cells {
        columns.push(column(alloc, *cell)?)?;
    }
    Ok(PartRow {
        columns: Items::from_vec(columns),
    })
}

/// The cells of tables 0 to 7, by table.
const ROWS: [(usize, &[Cell]); 7] = [
    (0, &[Name("mscorlib"), Number(4), Number(3), ONE, ZERO]),
    (
        0,
        &[
            Name("Microsoft.SPOT.Native"),
            Number(4),
            Number(3),
            ONE,
            ZERO,
        ],
    ),
    (1, &[ZERO, Name("System"), Name("Object")]),
    (1, &[ONE, Name("Microsoft.SPOT"), Name("Debug")]),
    (
        3,
        &[
            Number(0x4001),
            Name("Print"),
            Signature(&[0, 1, 0, 1, 0x0E]),
        ],
    ),
    (
        4,
        &[
            Name(""),
            Name("Program"),
            NONE,
            Number(0x4000),
            Number(0x80),
            ZERO,
            ZERO,
            ZERO,
            ZERO,
            ZERO,
            ONE,
        ],
    ),
    (
        7,
        &[
            Name("Main"),
            Signature(&[0, 0, 0, 8]),
            ONE,
            Code,
            Code,
            NONE,
            Number(8),
            ZERO,
            ZERO,
        ],
    ),
];

/// The rows of one table.
fn table(alloc: Global, number: usize) -> Result<Items<PartRow>, Fail> {
    let mut rows = Vec::new(alloc);
    for (of, cells) in &ROWS {
        if *of == number {
            rows.push(part_row(alloc, cells)?)?;
        }
    }
    Ok(Items::from_vec(rows))
}

/// The program's parts.
fn hello(alloc: Global) -> Result<Parts, Fail> {
    let mut tables = Vec::new(alloc);
    for number in 0..11 {
        tables.push(table(alloc, number)?)?;
    }
    let mut literals = Vec::new(alloc);
    literals.push(PartLiteral {
        method: 0,
        offset: 0,
        text: items(alloc, b"h\0i\0")?,
    })?;
    Ok(Parts {
        version: [1, 0, 0, 0],
        name: items(alloc, b"Hello")?,
        entry: 0,
        tables: Items::from_vec(tables),
        literals: Items::from_vec(literals),
    })
}

/// Parts with so many rows of interfaces.
fn interfaces(alloc: Global, count: usize) -> Result<Parts, Fail> {
    let mut rows = Vec::new(alloc);
    for _ in 0..count {
        rows.push(part_row(alloc, &[ZERO])?)?;
    }
    let mut tables = Vec::new(alloc);
    for _ in 0..5 {
        tables.push(Items::from_vec(Vec::new(alloc)))?;
    }
    tables.push(Items::from_vec(rows))?;
    Ok(Parts {
        version: [1, 0, 0, 0],
        name: items(alloc, b"Many")?,
        entry: 0xFFFF,
        tables: Items::from_vec(tables),
        literals: Items::from_vec(Vec::new(alloc)),
    })
}

/// The image up to the pools.
const HEAD: [u8; 134] = [
    0x4D, 0x53, 0x53, 0x70, 0x6F, 0x74, 0x31, 0x00, 0x08, 0x01, 0x00, 0x00, //
    0x01, 0x00, 0x00, 0x00, 0x00, 0x00, 0x00, 0x00, 0x00, 0x00, 0x00, 0x00, //
    0x02, 0x00, 0x02, 0x00, 0x00, 0x00, 0x01, 0x00, 0x01, 0x00, 0x00, 0x00, //
    0x00, 0x00, 0x01, 0x00, 0x00, 0x00, 0x00, 0x00, 0x00, 0x00, //
    0x6D, 0x00, 0x0D, 0x00, 0x08, 0x00, 0x00, 0x00, 0x00, 0x00, //
    0x07, 0x00, 0x04, 0x00, 0x03, 0x00, 0x01, 0x00, 0x00, 0x00, //
    0x11, 0x00, 0x04, 0x00, 0x03, 0x00, 0x01, 0x00, 0x00, 0x00, //
    0x00, 0x00, 0x28, 0x00, 0x30, 0x00, 0x01, 0x00, 0x38, 0x00, 0x48, 0x00, //
    0x01, 0x40, 0x4F, 0x00, 0x00, 0x00, //
    0x56, 0x00, 0x58, 0x00, 0xFF, 0xFF, 0x00, 0x40, 0x80, 0x00, //
    0x00, 0x00, 0x00, 0x00, 0x00, 0x00, 0x00, 0x00, 0x00, 0x00, 0x01, 0x00, //
    0x61, 0x00, 0x07, 0x00, 0x01, 0x00, 0x00, 0x00, 0x08, 0x00, 0xFF, 0xFF, //
    0x08, 0x00, 0x00, 0x00, 0x00, 0x00,
];

/// The pools of strings and of signatures, and the code.
const STRINGS: &[u8] =
    b"\x05\0Hello\x08\0mscorlib\x15\0Microsoft.SPOT.Native\x06\0System\x06\0Object\x0E\0Microsoft.SPOT\x05\0Debug\x05\0Print\0\0\x07\0Program\x04\0Main\x04\0h\0i\0";

const SIGNATURES: [u8; 13] = [5, 0, 0, 1, 0, 1, 0x0E, 4, 0, 0, 0, 0, 8];

const CODE: [u8; 8] = [0x72, 0x67, 0x00, 0x28, 0x00, 0x40, 0x1D, 0x2A];

fn written(alloc: Global, parts: &Parts, codes: &[Vec<u8>]) -> Result<Vec<u8>, WriteRefusal> {
    let pools = match pools(alloc, parts) {
        Ok(pools) => pools,
        Err(_) => return Err(WriteRefusal::NoMemory),
    };
    write(alloc, parts, &pools, codes)
}

#[test]
fn the_program_is_written(rt: HostRuntime) -> Result<(), Fail> {
    let alloc = rt.alloc();
    let parts = hello(alloc)?;
    let pools = pools(alloc, &parts).ok().ok_or("memory")?;
    assert_eq!(rt; pools.sizes(), [109, 13]);
    assert_eq!(rt; pools.literal(b"h\0i\0"), Some(103));
    assert_eq!(rt; pools.literal(b"Main"), None, "a name is no literal");
    let mut codes = Vec::new(alloc);
    codes.push(Vec::from_slice(alloc, &CODE)?)?;
    let bytes = written(alloc, &parts, codes.as_slice())
        .ok()
        .ok_or("an image")?;
    let mut want = Vec::from_slice(alloc, &HEAD)?;
    want.extend_from_slice(STRINGS)?;
    want.extend_from_slice(&SIGNATURES)?;
    want.extend_from_slice(&CODE)?;
    assert_eq!(rt; want.len(), 264);
    assert_eq!(rt; bytes.as_slice(), want.as_slice());
    Ok(())
}

#[test]
fn a_table_has_a_limit(rt: HostRuntime) -> Result<(), Fail> {
    let passed = WriteRefusal::Limit(Limit {
        number: 5,
        count: 16_384,
        assembly: 0,
    });
    for (count, refusal) in [(16_383, None), (16_384, Some(passed))] {
        let parts = interfaces(rt.alloc(), count)?;
        let pools = pools(rt.alloc(), &parts).ok().ok_or("memory")?;
        let written = write(rt.alloc(), &parts, &pools, &[]);
        assert_eq!(rt; written.err(), refusal, "{count} rows");
    }
    Ok(())
}
