//! The rows of the table. Everything counts from 0.

use member_keys::{ClassId, SignatureKey, TypeKey};
use plain_types::elem::Elem;

/// What a type is as the type of a place (ECMA-335 II.13, II.14.3).
#[derive(Clone, Copy, Debug, PartialEq, Eq)]
pub enum TypeKind {
    /// A class or an interface.
    Reference,
    /// The class of a primitive, of String or of Object.
    Builtin(Elem),
    /// An enum, with the element of its number; `Void` where it has not exactly one integer as its instance field.
    Enumeration(Elem),
    /// Another value type.
    OtherValue,
}

/// Where a field is kept (ECMA-335 II.23.1.5).
#[derive(Clone, Copy, Debug, PartialEq, Eq)]
pub enum FieldKind<'a> {
    Instance,
    /// Static, and neither literal nor with data.
    Static,
    Literal,
    /// Static with data: its bytes, `None` where it has none in a section.
    Data(Option<&'a [u8]>),
}

/// What runs where a method is called.
#[derive(Clone, Copy, Debug, PartialEq, Eq)]
pub enum Body {
    /// Code of the file, be it faulty.
    Code,
    /// A native of the base library, by its number from 1.
    Native(u16),
    Missing,
}

/// A type.
#[derive(Debug, Drop)]
pub struct ClassRow<'a> {
    pub namespace: &'a str,
    pub name: &'a str,
    /// The type of the same file that it is nested in.
    pub enclosing: Option<u32>,
    pub superclass: Option<ClassId>,
    /// Those that its own rows name and that are found, in the order of the rows.
    pub interfaces: Vec<ClassId>,
    pub kind: TypeKind,
    pub is_interface: bool,
    pub is_abstract: bool,
    /// beforefieldinit
    pub is_lazy: bool,
    pub first_field: u32,
    pub field_count: u32,
    pub first_method: u32,
    pub method_count: u32,
}

/// A field, whether a type has it or not.
#[derive(Clone, Copy, Debug)]
pub struct FieldRow<'a> {
    pub name: &'a str,
    /// `None` where the signature has no form or a type in it isn't found.
    pub signature: Option<TypeKey>,
    pub kind: FieldKind<'a>,
    /// The first type of the file that has the field.
    pub owner: Option<u32>,
}

/// A method, whether a type has it or not.
#[derive(Debug, Drop)]
pub struct MethodRow<'a> {
    pub name: &'a str,
    /// `None` where the signature has no form or a type in it isn't found.
    pub signature: Option<SignatureKey>,
    pub is_static: bool,
    pub is_virtual: bool,
    pub is_newslot: bool,
    pub is_abstract: bool,
    pub body: Body,
    /// The first type of the file that has the method.
    pub owner: Option<u32>,
}

/// What one file says.
#[derive(Debug, Drop)]
pub struct FileRows<'a> {
    pub classes: Vec<ClassRow<'a>>,
    pub fields: Vec<FieldRow<'a>>,
    pub methods: Vec<MethodRow<'a>>,
}

/// What the files of a world say.
#[derive(Debug, Drop)]
pub struct ClassTable<'a> {
    pub files: Vec<FileRows<'a>>,
    /// The first file whose assembly has the base library's name.
    pub library: Option<u32>,
    /// At least the number of all types: a chain that is longer goes in a circle.
    pub size: u64,
}
