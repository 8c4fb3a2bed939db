//! The listing: each type with its superclass, and below it its fields and methods with flags and signatures.

use crate::assembly::{Assembly, text};
use crate::types::{push_type, push_type_def, push_type_name};
use cil_code::{body, first_fault};
use cil_rows::{FieldRow, InterfaceImplRow, MethodDefRow, TypeDefRow, find_row, read_row};
use cil_sig::{SigType, field_sig, method_sig};
use cil_tables::Tables;
use file_tables::MOST_FILE_BYTES;
use file_tables::numbers::{FIELD, INTERFACE_IMPL, METHOD_DEF, TYPE_DEF};
use pe_reader::SectionCursor;
use std::alloc::{AllocError, Global};

/// A flag and the word for it.
type FlagWord = (u32, &'static str);

/// Words for the flags of types (ECMA-335 II.23.1.15).
const TYPE_WORDS: [FlagWord; 2] = [(0x80, "abstract "), (0x20, "interface ")];

/// Words for the flags of fields (II.23.1.5).
const FIELD_WORDS: [FlagWord; 1] = [(0x10, "static ")];

/// The flags of a static and of an abstract method.
const STATIC: u32 = 0x10;

const ABSTRACT: u32 = 0x400;

/// The flag of a native method's implementation.
const NATIVE: u32 = 0x1000;

/// Words for the flags of methods (II.23.1.10).
const METHOD_WORDS: [FlagWord; 4] = [
    (STATIC, "static "),
    (ABSTRACT, "abstract "),
    (0x100, "newslot "),
    (0x40, "virtual "),
];

/// Words for the flags of implementations (II.23.1.11).
const IMPLEMENTATION_WORDS: [FlagWord; 1] = [(NATIVE, "native ")];

/// Appends the word for the accessibility in a member's lowest three flags (II.23.1.5, II.23.1.10).
fn push_access(out: &mut String, flags: u32) -> Result<(), AllocError> {
    match flags % 8 {
        1 => out.push_str("private "),
        3 => out.push_str("internal "),
        6 => out.push_str("public "),
        _ => out.push_str("other "),
    }
}

/// Appends the words for the flags that are set.
fn push_flags(out: &mut String, flags: u32, words: &[FlagWord]) -> Result<(), AllocError> {
    for (flag, word) in words {
        if flags & *flag != 0 {
            out.push_str(word)?;
        }
    }
    Ok(())
}

/// Appends types with commas between them.
fn push_types(out: &mut String, tables: &Tables<'_>, types: &[SigType]) -> Result<(), AllocError> {
    for (k, of) in types.iter().enumerate() {
        if k > 0 {
            out.push_str(", ")?;
        }
        push_type(out, tables, of)?;
    }
    Ok(())
}

/// Appends the line of a field.
fn push_field(out: &mut String, tables: &Tables<'_>, row: &FieldRow) -> Result<(), AllocError> {
    out.push_str("  ")?;
    push_access(out, row.flags)?;
    push_flags(out, row.flags, &FIELD_WORDS)?;
    match field_sig(tables.blob(row.signature).unwrap_or(&[])) {
        Ok(of) => push_type(out, tables, &of)?,
        Err(_) => out.push_str("?")?,
    }
    out.push_str(" ")?;
    out.push_str(text(tables, row.name))?;
    out.push_str("\n")
}

/// What is told of a method's body: nothing, or that it is missing or too much, that it isn't whole, or that its code
/// can't be walked from start to end.
fn body_note(cursor: &mut SectionCursor<'_>, row: &MethodDefRow) -> &'static str {
    let has_body = row.rva != 0;
    let wants_body = row.flags & ABSTRACT == 0 && row.impl_flags & NATIVE == 0;
    match (has_body, wants_body) {
        (false, false) => "",
        (true, true) => bytes_note(cursor.tail(row.rva).unwrap_or(&[])),
        (false, true) => " (no body)",
        (true, false) => " (a body too much)",
    }
}

/// The same of the bytes from its header on.
fn bytes_note(bytes: &[u8]) -> &'static str {
    if bytes.len() > MOST_FILE_BYTES {
        return " (body too long)";
    }
    match body(bytes) {
        Ok(body) => code_note(body.code()),
        Err(_) => " (faulty body)",
    }
}

/// The same of code.
fn code_note(code: &[u8]) -> &'static str {
    if code.len() > MOST_FILE_BYTES {
        return " (code too long)";
    }
    match first_fault(code) {
        Some(_) => " (faulty code)",
        None => "",
    }
}

/// Appends name and signature of a method.
fn push_signature(
    out: &mut String,
    alloc: Global,
    tables: &Tables<'_>,
    row: &MethodDefRow,
) -> Result<(), AllocError> {
    let name = text(tables, row.name);
    match method_sig(alloc, tables.blob(row.signature).unwrap_or(&[])) {
        Ok(sig) => {
            push_type(out, tables, &sig.returns)?;
            out.push_str(" ")?;
            out.push_str(name)?;
            out.push_str("(")?;
            push_types(out, tables, sig.params.as_slice())?;
            let is_static = row.flags & STATIC != 0;
            out.push_str(if sig.this == is_static {
                ") against its flag"
            } else {
                ")"
            })
        }
        Err(_) => {
            out.push_str("? ")?;
            out.push_str(name)
        }
    }
}

/// Appends the line of a method.
fn push_method(
    out: &mut String,
    alloc: Global,
    tables: &Tables<'_>,
    cursor: &mut SectionCursor<'_>,
    row: &MethodDefRow,
) -> Result<(), AllocError> {
    out.push_str("  ")?;
    push_access(out, row.flags)?;
    push_flags(out, row.flags, &METHOD_WORDS)?;
    push_flags(out, row.impl_flags, &IMPLEMENTATION_WORDS)?;
    push_signature(out, alloc, tables, row)?;
    out.push_str(body_note(cursor, row))?;
    out.push_str("\n")
}

/// Appends the line of a type.
fn push_type_line(
    out: &mut String,
    tables: &Tables<'_>,
    number: u32,
    row: &TypeDefRow,
) -> Result<(), AllocError> {
    push_flags(out, row.flags, &TYPE_WORDS)?;
    push_type_def(out, tables, number)?;
    if row.extends != 0 {
        out.push_str(" : ")?;
        push_type_name(out, tables, row.extends)?;
    }
    out.push_str("\n")
}

/// Behind the last row of a table.
fn behind_last(tables: &Tables<'_>, table: u8) -> u32 {
    tables.rows(table).saturating_add(1)
}

/// Appends the lines of a type and its members, which end where those of the next type begin, or with the last row of
/// their table (II.22.37).
fn push_class(
    out: &mut String,
    alloc: Global,
    tables: &Tables<'_>,
    cursor: &mut SectionCursor<'_>,
    number: u32,
    row: &TypeDefRow,
) -> Result<(), AllocError> {
    push_type_line(out, tables, number, row)?;
    let (fields_end, methods_end) = match find_row::<TypeDefRow>(tables, number.saturating_add(1)) {
        Some(next) => (next.first_field, next.first_method),
        None => (behind_last(tables, FIELD), behind_last(tables, METHOD_DEF)),
    };
    push_fields(out, tables, row.first_field, fields_end)?;
    push_methods(out, alloc, tables, cursor, row.first_method, methods_end)
}

/// Appends the fields of some rows.
fn push_fields(
    out: &mut String,
    tables: &Tables<'_>,
    first: u32,
    end: u32,
) -> Result<(), AllocError> {
    for number in first..end {
        if let Some(field) = find_row::<FieldRow>(tables, number) {
            push_field(out, tables, &field)?;
        }
    }
    Ok(())
}

/// Appends the methods of some rows.
fn push_methods(
    out: &mut String,
    alloc: Global,
    tables: &Tables<'_>,
    cursor: &mut SectionCursor<'_>,
    first: u32,
    end: u32,
) -> Result<(), AllocError> {
    for number in first..end {
        if let Some(method) = find_row::<MethodDefRow>(tables, number) {
            push_method(out, alloc, tables, cursor, &method)?;
        }
    }
    Ok(())
}

/// Appends a line for each row of InterfaceImpl.
fn push_interfaces(out: &mut String, tables: &Tables<'_>) -> Result<(), AllocError> {
    for number in 1..=tables.rows(INTERFACE_IMPL) {
        let row: InterfaceImplRow = read_row(tables, number);
        push_type_def(out, tables, row.class)?;
        out.push_str(" implements ")?;
        push_type_name(out, tables, row.interface)?;
        out.push_str("\n")?;
    }
    Ok(())
}

/// Each type with its superclass, its fields and methods, and then which class implements which interface. A body whose
/// code can't be walked from start to end is told at its method.
pub fn listing(alloc: Global, assembly: &Assembly<'_>) -> Result<String, AllocError> {
    let mut out = String::new(alloc);
    let tables = &assembly.tables;
    let mut cursor = assembly.pe.cursor();
    for number in 1..=tables.rows(TYPE_DEF) {
        let row: TypeDefRow = read_row(tables, number);
        push_class(&mut out, alloc, tables, &mut cursor, number, &row)?;
    }
    push_interfaces(&mut out, tables)?;
    Ok(out)
}
