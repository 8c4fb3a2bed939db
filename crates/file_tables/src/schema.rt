//! The metadata schema as data (ECMA-335 II.22).

ghost use Rattle.std.specs.Prelude.{◌≡◌, ◌<◌};
ghost use Rattle.file_tables.specs.Schema.{columns_of, tables_of, tag_bits_of};

use crate::numbers::*;

/// A kind of coded index (ECMA-335 II.24.2.6).
#[derive(Clone, Copy, Debug, PartialEq, Eq)]
pub enum Coded {
    TypeDefOrRef,
    HasConstant,
    HasCustomAttribute,
    HasFieldMarshal,
    HasDeclSecurity,
    MemberRefParent,
    HasSemantics,
    MethodDefOrRef,
    MemberForwarded,
    Implementation,
    CustomAttributeType,
    ResolutionScope,
    TypeOrMethodDef,
}

/// How many of the lowest bits of a coded index are its tag, for each kind in the order of [`Coded`].
pub const TAG_BITS: [u8; 13] = [2, 2, 5, 1, 2, 3, 1, 1, 1, 2, 3, 2, 1];

/// The table of tag 0, 1, 2 and so on, for each kind in the order of [`Coded`].
pub const TAG_TABLES: [&[u8]; 13] = [
    // TypeDefOrRef
    &[TYPE_DEF, TYPE_REF, TYPE_SPEC],
    // HasConstant
    &[FIELD, PARAM, PROPERTY],
    // HasCustomAttribute
    &[
        METHOD_DEF,
        FIELD,
        TYPE_REF,
        TYPE_DEF,
        PARAM,
        INTERFACE_IMPL,
        MEMBER_REF,
        MODULE,
        DECL_SECURITY,
        PROPERTY,
        EVENT,
        STAND_ALONE_SIG,
        MODULE_REF,
        TYPE_SPEC,
        ASSEMBLY,
        ASSEMBLY_REF,
        FILE,
        EXPORTED_TYPE,
        MANIFEST_RESOURCE,
        GENERIC_PARAM,
        GENERIC_PARAM_CONSTRAINT,
        METHOD_SPEC,
    ],
    // HasFieldMarshal
    &[FIELD, PARAM],
    // HasDeclSecurity
    &[TYPE_DEF, METHOD_DEF, ASSEMBLY],
    // MemberRefParent
    &[TYPE_DEF, TYPE_REF, MODULE_REF, METHOD_DEF, TYPE_SPEC],
    // HasSemantics
    &[EVENT, PROPERTY],
    // MethodDefOrRef
    &[METHOD_DEF, MEMBER_REF],
    // MemberForwarded
    &[FIELD, METHOD_DEF],
    // Implementation
    &[FILE, ASSEMBLY_REF, EXPORTED_TYPE],
    // CustomAttributeType
    &[NO_TABLE, NO_TABLE, METHOD_DEF, MEMBER_REF],
    // ResolutionScope
    &[MODULE, MODULE_REF, ASSEMBLY_REF, TYPE_REF],
    // TypeOrMethodDef
    &[TYPE_DEF, METHOD_DEF],
];

/// What a column of a table holds.
#[derive(Clone, Copy, Debug, PartialEq, Eq)]
pub enum Column {
    /// A number of two bytes.
    Two,
    /// A number of four bytes.
    Four,
    /// An index into `#Strings`.
    Strings,
    /// An index into `#GUID`, in entries of 16 bytes counted from 1.
    Guid,
    /// An index into `#Blob`.
    Blob,
    /// A row of the table, counted from 1.
    RowOf(u8),
    /// The first of the rows of the table that belong to this row; they end where those of the next row begin.
    ListOf(u8),
    /// A row of one of several tables.
    Token(Coded),
    /// A row of one of several tables, or row 0 for none.
    TokenOrNone(Coded),
}

use Column::{Blob, Four, Guid, ListOf, RowOf, Strings, Token, TokenOrNone, Two};

/// The most columns that a table has.
pub const MOST_COLUMNS: usize = 9;

/// The columns of each table by its number; a number without columns is no table.
pub const SCHEMA: [&[Column]; TABLES] = [
    // 0x00 Module
    &[Two, Strings, Guid, Guid, Guid],
    // 0x01 TypeRef
    &[Token(Coded::ResolutionScope), Strings, Strings],
    // 0x02 TypeDef
    &[
        Four,
        Strings,
        Strings,
        TokenOrNone(Coded::TypeDefOrRef),
        ListOf(FIELD),
        ListOf(METHOD_DEF),
    ],
    &[],
    // 0x04 Field
    &[Two, Strings, Blob],
    &[],
    // 0x06 MethodDef
    &[Four, Two, Two, Strings, Blob, ListOf(PARAM)],
    &[],
    // 0x08 Param
    &[Two, Two, Strings],
    // 0x09 InterfaceImpl
    &[RowOf(TYPE_DEF), Token(Coded::TypeDefOrRef)],
    // 0x0A MemberRef
    &[Token(Coded::MemberRefParent), Strings, Blob],
    // 0x0B Constant
    &[Two, Token(Coded::HasConstant), Blob],
    // 0x0C CustomAttribute
    &[
        Token(Coded::HasCustomAttribute),
        Token(Coded::CustomAttributeType),
        Blob,
    ],
    // 0x0D FieldMarshal
    &[Token(Coded::HasFieldMarshal), Blob],
    // 0x0E DeclSecurity
    &[Two, Token(Coded::HasDeclSecurity), Blob],
    // 0x0F ClassLayout
    &[Two, Four, RowOf(TYPE_DEF)],
    // 0x10 FieldLayout
    &[Four, RowOf(FIELD)],
    // 0x11 StandAloneSig
    &[Blob],
    // 0x12 EventMap
    &[RowOf(TYPE_DEF), ListOf(EVENT)],
    &[],
    // 0x14 Event
    &[Two, Strings, Token(Coded::TypeDefOrRef)],
    // 0x15 PropertyMap
    &[RowOf(TYPE_DEF), ListOf(PROPERTY)],
    &[],
    // 0x17 Property
    &[Two, Strings, Blob],
    // 0x18 MethodSemantics
    &[Two, RowOf(METHOD_DEF), Token(Coded::HasSemantics)],
    // 0x19 MethodImpl
    &[
        RowOf(TYPE_DEF),
        Token(Coded::MethodDefOrRef),
        Token(Coded::MethodDefOrRef),
    ],
    // 0x1A ModuleRef
    &[Strings],
    // 0x1B TypeSpec
    &[Blob],
    // 0x1C ImplMap
    &[
        Two,
        Token(Coded::MemberForwarded),
        Strings,
        RowOf(MODULE_REF),
    ],
    // 0x1D FieldRVA
    &[Four, RowOf(FIELD)],
    &[],
    &[],
    // 0x20 Assembly
    &[Four, Two, Two, Two, Two, Four, Blob, Strings, Strings],
    // 0x21 AssemblyProcessor
    &[Four],
    // 0x22 AssemblyOS
    &[Four, Four, Four],
    // 0x23 AssemblyRef
    &[Two, Two, Two, Two, Four, Blob, Strings, Strings, Blob],
    // 0x24 AssemblyRefProcessor
    &[Four, RowOf(ASSEMBLY_REF)],
    // 0x25 AssemblyRefOS
    &[Four, Four, Four, RowOf(ASSEMBLY_REF)],
    // 0x26 File
    &[Four, Strings, Blob],
    // 0x27 ExportedType
    &[Four, Four, Strings, Strings, Token(Coded::Implementation)],
    // 0x28 ManifestResource
    &[Four, Four, Strings, Token(Coded::Implementation)],
    // 0x29 NestedClass
    &[RowOf(TYPE_DEF), RowOf(TYPE_DEF)],
    // 0x2A GenericParam
    &[Two, Two, Token(Coded::TypeOrMethodDef), Strings],
    // 0x2B MethodSpec
    &[Token(Coded::MethodDefOrRef), Blob],
    // 0x2C GenericParamConstraint
    &[RowOf(GENERIC_PARAM), Token(Coded::TypeDefOrRef)],
    &[],
    &[],
    &[],
    &[],
    &[],
    &[],
    &[],
    &[],
    &[],
    &[],
    &[],
    &[],
    &[],
    &[],
    &[],
    &[],
    &[],
    &[],
    &[],
];

/// The tables whose rows are looked at when a file is opened, in order.
pub const LOOKED_AT: [u8; 13] = [
    TYPE_REF,
    TYPE_DEF,
    FIELD,
    METHOD_DEF,
    INTERFACE_IMPL,
    MEMBER_REF,
    CLASS_LAYOUT,
    STAND_ALONE_SIG,
    TYPE_SPEC,
    FIELD_RVA,
    ASSEMBLY,
    ASSEMBLY_REF,
    NESTED_CLASS,
];

/// The columns of a table; none where the number is no table's.
#[tactic(auto, unfolding(crate::specs::Schema::columns_of))]
pub fn columns(table: u8) -> &'static [Column]
    requires { table < 64 }
    ensures { result.now ≡ columns_of table }
{
    SCHEMA[table as usize]
}

impl Coded {
    /// How many of the lowest bits of such an index are its tag.
    #[tactic(auto, unfolding(crate::specs::Schema::tag_bits_of))]
    pub fn tag_bits(self) -> u8
        ensures { result ≡ tag_bits_of self }
    {
        TAG_BITS[self as usize]
    }

    /// The tables of its tags.
    #[tactic(auto, unfolding(crate::specs::Schema::tables_of))]
    pub fn tables(self) -> &'static [u8]
        ensures { result.now ≡ tables_of self }
    {
        TAG_TABLES[self as usize]
    }
}
