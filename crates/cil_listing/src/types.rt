//! Types in words: full names, and the names that C# has for the elements of signatures.

use crate::assembly::text;
use cil_rows::{TypeDefRow, TypeRefRow, find_row};
use cil_sig::SigType;
use cil_tables::Tables;
use plain_types::elem::Elem;
use std::alloc::AllocError;

/// Appends namespace and name, with a point between them where there is a namespace.
fn push_full_name(out: &mut String, namespace: &str, name: &str) -> Result<(), AllocError> {
    if !namespace.is_empty() {
        out.push_str(namespace)?;
        out.push_str(".")?;
    }
    out.push_str(name)
}

/// Appends the full name of a row of TypeDef.
pub fn push_type_def(out: &mut String, tables: &Tables<'_>, number: u32) -> Result<(), AllocError> {
    match find_row::<TypeDefRow>(tables, number) {
        Some(row) => push_full_name(out, text(tables, row.namespace), text(tables, row.name)),
        None => out.push_str("?"),
    }
}

/// Appends the full name of a row of TypeRef.
fn push_type_ref(out: &mut String, tables: &Tables<'_>, number: u32) -> Result<(), AllocError> {
    match find_row::<TypeRefRow>(tables, number) {
        Some(row) => push_full_name(out, text(tables, row.namespace), text(tables, row.name)),
        None => out.push_str("?"),
    }
}

/// Appends the full name of the type of a TypeDefOrRef (ECMA-335 II.24.2.6).
pub fn push_type_name(out: &mut String, tables: &Tables<'_>, coded: u32) -> Result<(), AllocError> {
    match coded % 4 {
        0 => push_type_def(out, tables, coded / 4),
        1 => push_type_ref(out, tables, coded / 4),
        _ => out.push_str("?"),
    }
}

/// The name that C# has for an element; none for a class or a value type, which its token names.
fn element_name(elem: Elem) -> Option<&'static str> {
    match elem {
        Elem::Void => Some("void"),
        Elem::Bool => Some("bool"),
        Elem::Char => Some("char"),
        Elem::I1 => Some("sbyte"),
        Elem::U1 => Some("byte"),
        Elem::I2 => Some("short"),
        Elem::U2 => Some("ushort"),
        Elem::I4 => Some("int"),
        Elem::U4 => Some("uint"),
        Elem::I8 => Some("long"),
        Elem::U8 => Some("ulong"),
        Elem::String => Some("string"),
        Elem::Object => Some("object"),
        Elem::Class | Elem::Value => None,
    }
}

/// Appends a type of a signature.
pub fn push_type(out: &mut String, tables: &Tables<'_>, of: &SigType) -> Result<(), AllocError> {
    if of.pointer {
        out.push_str("ref ")?;
    }
    match element_name(of.elem) {
        Some(name) => out.push_str(name)?,
        None => push_type_name(out, tables, of.token)?,
    }
    for _ in 0..of.ranks {
        out.push_str("[]")?;
    }
    Ok(())
}
