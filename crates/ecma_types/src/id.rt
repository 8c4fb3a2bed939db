//! Rows of a world of assemblies.

/// A type of the world: its file's number from 0, and its TypeDef row from 1.
#[derive(Clone, Copy, Debug, PartialEq, Eq, PartialOrd, Ord)]
pub struct TypeId {
    pub file: u16,
    pub row: u32,
}

/// A method of the world: its file's number from 0, and its MethodDef row from 1.
#[derive(Clone, Copy, Debug, PartialEq, Eq, PartialOrd, Ord)]
pub struct MethodId {
    pub file: u16,
    pub row: u32,
}

/// A field of the world: its file's number from 0, and its Field row from 1.
#[derive(Clone, Copy, Debug, PartialEq, Eq, PartialOrd, Ord)]
pub struct FieldId {
    pub file: u16,
    pub row: u32,
}
