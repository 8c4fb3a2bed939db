//! Changes of an assembly's bytes: a column of a row, the entry token, or a table that is taken for another.

use cil_layout::fixed::TABLES_PLACE;
use file_tables::bytes::{has_bit, u32_at};
use file_tables::schema::{Column, columns};
use plain_types::fault::Failed;

/// What a column is to hold.
#[derive(Clone, Copy)]
pub enum Value {
    Is(u32),
    /// More than what stands there.
    More(u32),
}

/// A change of a file that the builder has made. Its tables and heaps are small, so that indexes have two bytes.
#[derive(Clone, Copy)]
pub enum Change {
    /// A column, from 0, of a row, from 1.
    Column {
        table: u8,
        row: u32,
        column: usize,
        value: Value,
    },
    /// The entry token (ECMA-335 II.25.3.3).
    Entry(u32),
    /// The bytes of a table are taken for so many rows of another, between the same neighbours.
    Retable {
        from: u8,
        to: u8,
        rows: u32,
    },
}

/// Where the CLI header stands in the file (II.25.3.3).
const CLI: usize = 0x200;

/// How far the addresses of the one section are from its places in the file.
const ABOVE: usize = 0x2000 - CLI;

fn four(file: &[u8], at: usize) -> Result<u32, Failed> {
    if at < file.len() && file.len() - at >= 4 {
        Ok(u32_at(file, at))
    } else {
        Err(Failed)
    }
}

fn put(file: &mut [u8], at: usize, bytes: &[u8]) -> Result<(), Failed> {
    if at < file.len() && file.len() - at >= bytes.len() {
        file[at..at + bytes.len()].copy_from_slice(bytes);
        Ok(())
    } else {
        Err(Failed)
    }
}

/// The stream `#~` (II.24.2.6).
#[derive(Drop)]
struct Stream {
    place: usize,
    /// The tables that are there.
    tables: u64,
}

fn stream_of(file: &[u8]) -> Result<Stream, Failed> {
    let root = four(file, CLI + 8)? as usize;
    let place = root.wrapping_sub(ABOVE).wrapping_add(TABLES_PLACE as usize);
    let low = u64::from(four(file, place.wrapping_add(8))?);
    let high = u64::from(four(file, place.wrapping_add(12))?);
    Ok(Stream {
        place,
        tables: low + high * 0x1_0000_0000,
    })
}

/// Where the count of a table's rows stands, or would stand.
fn count_place(stream: &Stream, table: u8) -> usize {
    let mut place = stream.place.wrapping_add(24);
    for other in 0..table.min(64) {
        if has_bit(stream.tables, u32::from(other)) {
            place = place.wrapping_add(4);
        }
    }
    place
}

fn count_of(file: &[u8], stream: &Stream, table: u8) -> Result<u32, Failed> {
    if table < 64 && has_bit(stream.tables, u32::from(table)) {
        four(file, count_place(stream, table))
    } else {
        Ok(0)
    }
}

fn width(column: &Column) -> usize {
    match column {
        Column::Four => 4,
        _ => 2,
    }
}

/// The bytes in front of a column of a row.
fn bytes_before(table: u8, column: usize) -> usize {
    if table >= 64 {
        return 0;
    }
    let mut bytes: usize = 0;
    for one in columns(table).iter().take(column) {
        bytes = bytes.wrapping_add(width(one));
    }
    bytes
}

/// Where the rows of a table begin.
fn rows_place(file: &[u8], stream: &Stream, table: u8) -> Result<usize, Failed> {
    let mut place = count_place(stream, 64);
    for other in 0..table.min(64) {
        let rows = count_of(file, stream, other)? as usize;
        place = place.wrapping_add(rows.wrapping_mul(bytes_before(other, 9)));
    }
    Ok(place)
}

/// The width of a column, and where it stands in a row.
fn column_place(file: &[u8], table: u8, row: u32, column: usize) -> Result<usize, Failed> {
    let first = rows_place(file, &stream_of(file)?, table)?;
    let rows = (row as usize).wrapping_sub(1);
    let before = rows.wrapping_mul(bytes_before(table, 9));
    Ok(
        first
            .wrapping_add(before)
            .wrapping_add(bytes_before(table, column)),
    )
}

fn set_column(
    file: &mut [u8],
    table: u8,
    row: u32,
    column: usize,
    value: Value,
) -> Result<(), Failed> {
    let at = column_place(file, table, row, column)?;
    let number = match value {
        Value::Is(number) => number,
        Value::More(number) => four(file, at)?.wrapping_add(number),
    };
    let wide = bytes_before(table, column.wrapping_add(1)).wrapping_sub(bytes_before(
        table, column,
    ));
    let bytes = number.to_le_bytes();
    if wide == 4 {
        put(file, at, &bytes)
    } else {
        put(file, at, &bytes[..2])
    }
}

fn retable(file: &mut [u8], from: u8, to: u8, rows: u32) -> Result<(), Failed> {
    if from >= 64 || to >= 64 {
        return Err(Failed);
    }
    let stream = stream_of(file)?;
    let tables = (stream.tables & !(1 << from)) | (1 << to);
    put(file, count_place(&stream, from), &rows.to_le_bytes())?;
    put(file, stream.place.wrapping_add(8), &tables.to_le_bytes())
}

/// Changes a file.
pub fn changed(file: &mut [u8], change: &Change) -> Result<(), Failed> {
    match *change {
        Change::Column {
            table,
            row,
            column,
            value,
        } => set_column(file, table, row, column, value),
        Change::Entry(token) => put(file, CLI + 20, &token.to_le_bytes()),
        Change::Retable { from, to, rows } => retable(file, from, to, rows),
    }
}
