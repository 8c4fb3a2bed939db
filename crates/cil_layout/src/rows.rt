//! The rows that are asked for, with their names, signatures and bytes.

use plain_types::list::{Items, Text};

/// A row of TypeDef (ECMA-335 II.22.37). The fields and methods that are asked for behind it are its own.
#[derive(Drop)]
pub struct TypeRow {
    pub flags: u32,
    pub namespace: Text,
    pub name: Text,
    /// The token of the superclass, or 0.
    pub extends: u32,
}

/// A row of Field (II.22.15), with the bytes of a field that has data.
#[derive(Drop)]
pub struct FieldRow {
    pub flags: u16,
    pub name: Text,
    pub signature: Items<u8>,
    /// Its data; empty for a field without.
    pub bytes: Items<u8>,
}

/// A row of MethodDef (II.22.26) with its body.
#[derive(Drop)]
pub struct MethodRow {
    pub impl_flags: u16,
    pub flags: u16,
    pub name: Text,
    pub signature: Items<u8>,
    /// Header, code and sections; empty for a method without.
    pub body: Items<u8>,
}

/// A row of AssemblyRef (II.22.5).
#[derive(Drop)]
pub struct AssemblyRefRow {
    pub name: Text,
    pub version: [u16; 4],
}

/// A row of TypeRef (II.22.38).
#[derive(Drop)]
pub struct TypeRefRow {
    /// The token of the scope.
    pub scope: u32,
    pub namespace: Text,
    pub name: Text,
}

/// A row of MemberRef (II.22.25).
#[derive(Drop)]
pub struct MemberRefRow {
    /// The token of the type that has the member.
    pub parent: u32,
    pub name: Text,
    pub signature: Items<u8>,
}

/// A row of InterfaceImpl (II.22.23), by tokens.
#[derive(Clone, Copy)]
pub struct InterfaceRow {
    pub class: u32,
    pub interface: u32,
}

/// A row of NestedClass (II.22.32), by tokens.
#[derive(Clone, Copy)]
pub struct NestedRow {
    pub nested: u32,
    pub enclosing: u32,
}

/// A row of ClassLayout (II.22.8) with packing 0.
#[derive(Clone, Copy)]
pub struct LayoutRow {
    pub size: u32,
    /// The token of the type.
    pub class: u32,
}

/// One thing that is asked for: a row of a table, or a literal of the code.
#[derive(Drop)]
pub enum Row {
    TypeDef(TypeRow),
    Field(FieldRow),
    MethodDef(MethodRow),
    AssemblyRef(AssemblyRefRow),
    TypeRef(TypeRefRow),
    MemberRef(MemberRefRow),
    /// The signature of a type.
    TypeSpec(Items<u8>),
    /// The signature of a method's locals, a row of StandAloneSig.
    Locals(Items<u8>),
    InterfaceImpl(InterfaceRow),
    NestedClass(NestedRow),
    ClassLayout(LayoutRow),
    /// A literal in UTF-16 units.
    Literal(Items<u16>),
}

/// The most that an assembly may weigh, the most bytes of a file.
pub const MOST_WEIGHT: u32 = 4_194_304;

/// What each row weighs beside its names, signatures and bytes.
pub const ROW_WEIGHT: u32 = 32;

/// What the headers weigh.
pub const HEADERS_WEIGHT: u32 = 4096;

/// A table has at most this many rows.
pub const MOST_ROWS: u32 = 65_534;

/// The tables that the builder makes (II.22).
pub const MODULE: u8 = 0x00;

pub const TYPE_REF: u8 = 0x01;

pub const TYPE_DEF: u8 = 0x02;

pub const FIELD: u8 = 0x04;

pub const METHOD_DEF: u8 = 0x06;

pub const INTERFACE_IMPL: u8 = 0x09;

pub const MEMBER_REF: u8 = 0x0A;

pub const CLASS_LAYOUT: u8 = 0x0F;

pub const STAND_ALONE_SIG: u8 = 0x11;

pub const TYPE_SPEC: u8 = 0x1B;

pub const FIELD_RVA: u8 = 0x1D;

pub const ASSEMBLY: u8 = 0x20;

pub const ASSEMBLY_REF: u8 = 0x23;

pub const NESTED_CLASS: u8 = 0x29;

/// They in order.
pub const TABLES: [u8; 14] = [
    MODULE,
    TYPE_REF,
    TYPE_DEF,
    FIELD,
    METHOD_DEF,
    INTERFACE_IMPL,
    MEMBER_REF,
    CLASS_LAYOUT,
    STAND_ALONE_SIG,
    TYPE_SPEC,
    FIELD_RVA,
    ASSEMBLY,
    ASSEMBLY_REF,
    NESTED_CLASS,
];

/// Beside the tables: the highest byte of a literal's token (III.1.9).
pub const LITERAL: u8 = 0x70;

impl Row {
    ghost use Rattle.std.specs.Prelude.{◌≡◌, length, ◌<◌};
    ghost use Rattle.cil_layout.specs.Asked.{table_of, data_rows, row_weight};
    ghost use Rattle.cil_layout.specs.Text.{literal_size};

    /// The row's table, or [`LITERAL`].
    pub fn table(&self) -> u8
        ensures { result ≡ table_of self.now }
    {
        match self {
            Row::TypeDef(_) => TYPE_DEF,
            Row::Field(_) => FIELD,
            Row::MethodDef(_) => METHOD_DEF,
            Row::AssemblyRef(_) => ASSEMBLY_REF,
            Row::TypeRef(_) => TYPE_REF,
            Row::MemberRef(_) => MEMBER_REF,
            Row::TypeSpec(_) => TYPE_SPEC,
            Row::Locals(_) => STAND_ALONE_SIG,
            Row::InterfaceImpl(_) => INTERFACE_IMPL,
            Row::NestedClass(_) => NESTED_CLASS,
            Row::ClassLayout(_) => CLASS_LAYOUT,
            Row::Literal(_) => LITERAL,
        }
    }

    /// How many rows of FieldRVA it has, 0 or 1.
    pub fn data_rows(&self) -> u32
        ensures { result ≡ data_rows self.now }
    {
        match self {
            Row::Field(field) => match field.bytes.as_slice() {
                [] => 0,
                [_, ..] => 1,
            },
            _ => 0,
        }
    }
}
