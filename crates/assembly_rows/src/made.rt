//! Rows that are asked of the builder.

use cil_build::build::{Build, BuildRefusal};
use cil_build::refs::RefRow;
use cil_layout::rows::{FIELD, METHOD_DEF, TYPE_DEF};
use std::alloc::Global;

/// A row that is asked of the builder.
#[derive(Clone, Copy)]
pub enum Asked<'a> {
    Type {
        flags: u32,
        namespace: &'a str,
        name: &'a str,
        extends: u32,
    },
    Field {
        flags: u16,
        name: &'a str,
        sig: &'a [u8],
        bytes: &'a [u8],
    },
    Method {
        impl_flags: u16,
        flags: u16,
        name: &'a str,
        sig: &'a [u8],
        body: &'a [u8],
    },
    Other(RefRow<'a>),
}

/// Adds a row, and gives its token.
pub fn add(b: &mut Build, alloc: Global, row: &Asked<'_>) -> Result<u32, BuildRefusal> {
    if !b.has_room(TYPE_DEF) || !b.has_room(FIELD) || !b.has_room(METHOD_DEF) {
        return Err(BuildRefusal::Full);
    }
    Ok(match row {
        Asked::Type {
            flags,
            namespace,
            name,
            extends,
        } => b.add_type(alloc, *flags, namespace, name, *extends)?,
        Asked::Field {
            flags,
            name,
            sig,
            bytes,
        } => b.add_field(alloc, *flags, name, sig, bytes)?,
        Asked::Method {
            impl_flags,
            flags,
            name,
            sig,
            body,
        } => b.add_method(alloc, *impl_flags, *flags, name, sig, body)?,
        Asked::Other(other) => return add_other(b, alloc, other),
    })
}

fn add_other(b: &mut Build, alloc: Global, row: &RefRow<'_>) -> Result<u32, BuildRefusal> {
    if !b.has_room(row.table()) {
        return Err(BuildRefusal::Full);
    }
    Ok(b.add_ref(alloc, row)?)
}
