//! Rows, and changes of bytes, that are written as text: a line a row, or some rows in a line with `;` between them.
//!
//! A row is its kind, two numbers, a name, and bytes twice, with bars between them and all numbers in hex digits.
//! - assembly: name, and the four numbers of its version; 4.3.1.0 where none stand there.
//! - reference: scope, namespace and name with a blank between them. member: parent, name, signature.
//! - type: flags, superclass, namespace and name. interface: class, interface. layout: size, class. nested: the type inside, the one
//!   outside.
//! - field: flags, name, signature, data. method: flags, flags of its code, name, signature, body.
//! - spec, locals: signature.
//!
//! A change is its kind and numbers.
//! - is, more: table, row, column, and what the column is to hold, or to hold more.
//! - entry: token. retable: from, to, rows.

use crate::change::{Change, Value, changed};
use crate::made::{Asked, add};
use case_text::{Line, lines_of};
use cil_build::build::Build;
use cil_build::refs::RefRow;
use std::alloc::Global;
use std::test::Fail;

/// A row of an assembly: its kind, two numbers, a name, and bytes twice.
#[derive(Drop)]
struct Row<'a> {
    kind: &'a str,
    first: u32,
    second: u32,
    name: &'a str,
    sig: Vec<u8>,
    bytes: Vec<u8>,
}

fn row_of<'a>(alloc: Global, text: &'a str) -> Result<Row<'a>, Fail> {
    let line = Line::of(alloc, text, '|')?;
    Ok(Row {
        kind: line.text(0),
        first: line.hex(1)?,
        second: line.hex(2)?,
        name: line.text(3),
        sig: line.bytes(alloc, 4)?,
        bytes: line.bytes(alloc, 5)?,
    })
}

fn small(number: u32) -> u16 {
    (number & 0xFFFF) as u16
}

/// A namespace and a name, which stand with a blank between them.
fn split<'a>(full: &'a str) -> (&'a str, &'a str) {
    match full.split_once(' ') {
        Some(pair) => pair,
        None => ("", full),
    }
}

/// A row with a name and a signature of its own, or with two tokens.
fn asked_of<'a>(row: &'a Row<'a>) -> Asked<'a> {
    let (sig, bytes) = (row.sig.as_slice(), row.bytes.as_slice());
    match row.kind {
        "type" => type_of(row.first, row.second, row.name),
        "field" => Asked::Field {
            flags: small(row.first),
            name: row.name,
            sig,
            bytes,
        },
        "method" => Asked::Method {
            impl_flags: small(row.second),
            flags: small(row.first),
            name: row.name,
            sig,
            body: bytes,
        },
        "reference" => Asked::Other(reference_of(row.first, row.name)),
        "interface" | "layout" | "nested" => {
            Asked::Other(numbers_of(row.kind, row.first, row.second))
        }
        _ => Asked::Other(other_of(row)),
    }
}

fn type_of<'a>(flags: u32, extends: u32, full: &'a str) -> Asked<'a> {
    let (namespace, name) = split(full);
    Asked::Type {
        flags,
        namespace,
        name,
        extends,
    }
}

fn reference_of<'a>(scope: u32, full: &'a str) -> RefRow<'a> {
    let (namespace, name) = split(full);
    RefRow::TypeOf {
        scope,
        namespace,
        name,
    }
}

/// A row of one of the smaller tables, with a name or a signature.
fn other_of<'a>(row: &'a Row<'a>) -> RefRow<'a> {
    let sig = row.sig.as_slice();
    match row.kind {
        "assembly" => RefRow::Assembly {
            name: row.name,
            version: version_of(sig),
        },
        "member" => RefRow::Member {
            parent: row.first,
            name: row.name,
            sig,
        },
        "spec" => RefRow::Spec { sig },
        _ => RefRow::Locals { sig },
    }
}

fn version_of(numbers: &[u8]) -> [u16; 4] {
    match numbers {
        [major, minor, build, revision] => [
            u16::from(*major),
            u16::from(*minor),
            u16::from(*build),
            u16::from(*revision),
        ],
        _ => [4, 3, 1, 0],
    }
}

/// A row with two numbers.
fn numbers_of<'a>(kind: &str, first: u32, second: u32) -> RefRow<'a> {
    match kind {
        "interface" => RefRow::Interface {
            class: first,
            interface: second,
        },
        "nested" => RefRow::Nested {
            nested: first,
            enclosing: second,
        },
        _ => RefRow::Layout {
            size: first,
            class: second,
        },
    }
}

/// Adds the rows of a line.
pub fn add_rows(build: &mut Build, alloc: Global, line: &str) -> Result<(), Fail> {
    for text in line.split(';') {
        if text.trim() != "" {
            let row = row_of(alloc, text)?;
            let _token = add(build, alloc, &asked_of(&row))
                .ok()
                .ok_or("there is room")?;
        }
    }
    Ok(())
}

/// Adds the rows that lines tell.
pub fn add_lines(build: &mut Build, alloc: Global, lines: &str) -> Result<(), Fail> {
    for line in lines.lines() {
        add_rows(build, alloc, line)?;
    }
    Ok(())
}

/// The number that a column is to hold, or to hold more.
fn value_of(kind: &str, number: u32) -> Value {
    match kind {
        "is" => Value::Is(number),
        _ => Value::More(number),
    }
}

fn change_of(line: &Line<'_>) -> Result<Change, Fail> {
    Ok(match line.text(0) {
        "entry" => Change::Entry(line.hex(1)?),
        "retable" => Change::Retable {
            from: line.byte(1)?,
            to: line.byte(2)?,
            rows: line.hex(3)?,
        },
        kind => Change::Column {
            table: line.byte(1)?,
            row: line.hex(2)?,
            column: usize::from(line.byte(3)?),
            value: value_of(kind, line.hex(4)?),
        },
    })
}

/// Makes the changes of a line, with `;` between them.
pub fn change_file(file: &mut [u8], alloc: Global, changes: &str) -> Result<(), Fail> {
    for text in changes.split(';') {
        if text.trim() != "" {
            let line = Line::of(alloc, text, '|')?;
            changed(file, &change_of(&line)?)?;
        }
    }
    Ok(())
}

/// An assembly: its name, the token of its entry method, rows in lines that many share, further rows, and what is changed in its bytes.
#[derive(Clone, Copy)]
pub struct Assembly<'a> {
    pub name: &'a str,
    pub entry: u32,
    pub front: &'a str,
    pub rows: &'a str,
    pub changes: &'a str,
}

/// The bytes of an assembly.
pub fn made(alloc: Global, assembly: &Assembly<'_>) -> Result<Vec<u8>, Fail> {
    let mut build = Build::new(alloc, assembly.name, [1, 0, 0, 0])?;
    add_lines(&mut build, alloc, assembly.front)?;
    add_rows(&mut build, alloc, assembly.rows)?;
    build.set_entry(assembly.entry);
    let mut file = build.finish(alloc).ok().ok_or("there is room")?;
    change_file(&mut file, alloc, assembly.changes)?;
    Ok(file)
}
