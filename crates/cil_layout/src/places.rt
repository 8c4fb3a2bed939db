//! Where the parts of a row lie, and how wide its numbers are.

/// How far the heaps, the data and the tables have come before a row.
#[derive(Clone, Copy)]
pub struct Places {
    /// Bytes of `#Strings`.
    pub strings: u32,
    /// Bytes of `#Blob`.
    pub blobs: u32,
    /// Bytes of bodies and data.
    pub content: u32,
    /// Rows of Field.
    pub fields: u32,
    /// Rows of MethodDef.
    pub methods: u32,
}

/// The widths of indexes in bytes, 2 or 4 (ECMA-335 II.24.2.6).
#[derive(Clone, Copy)]
pub struct Widths {
    /// Of an index into `#Strings`.
    pub strings: u8,
    /// Of an index into `#Blob`.
    pub blobs: u8,
    /// Of a TypeDefOrRef.
    pub types: u8,
    /// Of a MemberRefParent.
    pub parents: u8,
    /// Of a ResolutionScope.
    pub scopes: u8,
}
