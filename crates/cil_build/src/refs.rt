//! The rows of the smaller tables, as a caller asks for them.

ghost use Rattle.std.specs.Prelude.{◌≡◌, IfOk};

use cil_layout::rows::{
    ASSEMBLY_REF, AssemblyRefRow, CLASS_LAYOUT, INTERFACE_IMPL, InterfaceRow, LayoutRow,
    MEMBER_REF, MemberRefRow, NESTED_CLASS, NestedRow, Row, STAND_ALONE_SIG, TYPE_REF, TYPE_SPEC,
    TypeRefRow,
};
use plain_types::fault::NoMemory;
use plain_types::list::{Items, Text};
use std::alloc::Global;

/// A row of one of the smaller tables. Each token is one that its column takes (ECMA-335 II.22).
#[derive(Clone, Copy)]
pub enum RefRow<'a> {
    /// A row of AssemblyRef.
    Assembly {
        name: &'a str,
        version: [u16; 4],
    },
    /// A row of TypeRef.
    TypeOf {
        scope: u32,
        namespace: &'a str,
        name: &'a str,
    },
    /// A row of MemberRef.
    Member {
        parent: u32,
        name: &'a str,
        sig: &'a [u8],
    },
    /// A row of TypeSpec.
    Spec {
        sig: &'a [u8],
    },
    /// A row of StandAloneSig.
    Locals {
        sig: &'a [u8],
    },
    /// A row of InterfaceImpl.
    Interface {
        class: u32,
        interface: u32,
    },
    /// A row of NestedClass.
    Nested {
        nested: u32,
        enclosing: u32,
    },
    /// A row of ClassLayout.
    Layout {
        size: u32,
        class: u32,
    },
}

/// A copy of a signature or of bytes.
pub fn copied(alloc: Global, bytes: &[u8]) -> Result<Items<u8>, NoMemory>
    ensures { IfOk result (λ copy. copy ≡ bytes.now) }
{
    Ok(Items::from_vec(Vec::from_slice(alloc, bytes)?))
}

impl RefRow<'_> {
    ghost use Rattle.std.specs.Prelude.{◌≡◌, ◌<◌, IfOk};
    ghost use Rattle.cil_build.specs.Refs.{row_of_ref};
    ghost use Rattle.cil_layout.specs.Asked.{table_of};

    /// The table of the row.
    pub fn table(&self) -> u8
        ensures table { result ≡ table_of (row_of_ref self.now) }
        ensures below { result < 64 }
    {
        match self {
            RefRow::Assembly { .. } => ASSEMBLY_REF,
            RefRow::TypeOf { .. } => TYPE_REF,
            RefRow::Member { .. } => MEMBER_REF,
            RefRow::Spec { .. } => TYPE_SPEC,
            RefRow::Locals { .. } => STAND_ALONE_SIG,
            RefRow::Interface { .. } => INTERFACE_IMPL,
            RefRow::Nested { .. } => NESTED_CLASS,
            RefRow::Layout { .. } => CLASS_LAYOUT,
        }
    }

    /// The row that is made, with copies of its texts and signatures.
    pub fn made(&self, alloc: Global) -> Result<Row, NoMemory>
        ensures { IfOk result (λ row. row ≡ row_of_ref self.now) }
    {
        Ok(match self {
            RefRow::Assembly { name, version } => Row::AssemblyRef(AssemblyRefRow {
                name: Text::copied(alloc, name)?,
                version: *version,
            }),
            RefRow::TypeOf {
                scope,
                namespace,
                name,
            } => Row::TypeRef(TypeRefRow {
                scope: *scope,
                namespace: Text::copied(alloc, namespace)?,
                name: Text::copied(alloc, name)?,
            }),
            RefRow::Member { parent, name, sig } => Row::MemberRef(MemberRefRow {
                parent: *parent,
                name: Text::copied(alloc, name)?,
                signature: copied(alloc, sig)?,
            }),
            RefRow::Spec { sig } => Row::TypeSpec(copied(alloc, sig)?),
            RefRow::Locals { sig } => Row::Locals(copied(alloc, sig)?),
            RefRow::Interface { class, interface } => Row::InterfaceImpl(InterfaceRow {
                class: *class,
                interface: *interface,
            }),
            RefRow::Nested { nested, enclosing } => Row::NestedClass(NestedRow {
                nested: *nested,
                enclosing: *enclosing,
            }),
            RefRow::Layout { size, class } => Row::ClassLayout(LayoutRow {
                size: *size,
                class: *class,
            }),
        })
    }
}
