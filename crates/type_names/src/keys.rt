//! The names by which types and assemblies are looked up.

/// A type's name: the type that it is nested in, its namespace and its name (II.22.37).
#[derive(Clone, Copy, PartialEq, Eq, PartialOrd, Ord)]
pub struct NameKey<'a> {
    /// The row of the type that it is nested in, from 0.
    pub enclosing: Option<u32>,
    pub namespace: &'a str,
    pub name: &'a str,
}

/// The four numbers of a version.
#[derive(Clone, Copy, PartialEq, Eq, PartialOrd, Ord)]
pub struct Version {
    pub major: u32,
    pub minor: u32,
    pub build: u32,
    pub revision: u32,
}

/// An assembly's name and version (II.22.2).
#[derive(Clone, Copy, PartialEq, Eq, PartialOrd, Ord)]
pub struct AssemblyKey<'a> {
    pub name: &'a str,
    pub version: Version,
}
