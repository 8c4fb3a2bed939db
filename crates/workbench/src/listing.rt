//! The listing of a file's tables.

use cil_rows::{MethodDefRow, TypeDefRow, read_row};
use cil_tables::Tables;
use file_tables::numbers::{METHOD_DEF, TYPE_DEF};
use std::io;

/// Prints the row count of each table that has rows.
fn list_counts(rt: &impl Print, tables: &Tables<'_>) -> io::Result<()> {
    for table in 0..64 {
        let rows = tables.rows(table);
        if rows > 0 {
            println!(rt; "table {table:02x}: {rows}")?;
        }
    }
    Ok(())
}

/// The text of an index into `#Strings`.
fn text<'a>(tables: &Tables<'a>, index: u32) -> &'a str {
    tables.string(index).unwrap_or("")
}

/// Prints a line with two names for each row of a table.
fn list_types(rt: &impl Print, tables: &Tables<'_>) -> io::Result<()> {
    for n in 1..=tables.rows(TYPE_DEF) {
        let row: TypeDefRow = read_row(tables, n);
        let name = text(tables, row.name);
        let namespace = text(tables, row.namespace);
        println!(rt; "type {namespace}.{name}")?;
    }
    Ok(())
}

/// Prints a line with its name for each method.
fn list_methods(rt: &impl Print, tables: &Tables<'_>) -> io::Result<()> {
    for n in 1..=tables.rows(METHOD_DEF) {
        let row: MethodDefRow = read_row(tables, n);
        let name = text(tables, row.name);
        println!(rt; "method {name}")?;
    }
    Ok(())
}

/// Prints the row counts, the types and the methods.
pub fn list(rt: &impl Print, tables: &Tables<'_>) -> io::Result<()> {
    list_counts(rt, tables)?;
    list_types(rt, tables)?;
    list_methods(rt, tables)
}
