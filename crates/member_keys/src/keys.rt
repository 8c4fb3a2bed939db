//! The names and signatures of members, with each token replaced by the class that it names (II.23.2).

use plain_types::elem::Elem;

/// A class of a world: its file, and its row from 0.
#[derive(Clone, Copy, Debug, PartialEq, Eq, PartialOrd, Ord)]
pub struct ClassId {
    pub file: u32,
    pub row: u32,
}

/// What stands inside the array brackets of a type.
#[derive(Clone, Copy, Debug, PartialEq, Eq, PartialOrd, Ord)]
pub enum ElementKey {
    /// A byte alone.
    Spelt(Elem),
    Class(ClassId),
    Value(ClassId),
}

/// A type in a signature.
#[derive(Clone, Copy, Debug, PartialEq, Eq, PartialOrd, Ord)]
pub struct TypeKey {
    /// How many array brackets stand round the element.
    pub ranks: u16,
    pub element: ElementKey,
}

/// A parameter: a type, or a managed pointer to one.
#[derive(Clone, Copy, Debug, PartialEq, Eq, PartialOrd, Ord)]
pub struct PlaceKey {
    pub by_ref: bool,
    pub of: TypeKey,
}

/// The signature of a method; that of a field is one of its type as the result, without `this` and parameters.
#[derive(Debug, PartialEq, Eq, PartialOrd, Ord, Drop)]
pub struct SignatureKey {
    pub has_this: bool,
    /// `None` is void.
    pub returns: Option<TypeKey>,
    pub parameters: Vec<PlaceKey>,
}

/// A member's name and its signature, which is `None` where that has no form or a type of it isn't found.
#[derive(Debug, PartialEq, Eq, PartialOrd, Ord, Drop)]
pub struct MemberKey<'a> {
    pub name: &'a str,
    pub signature: Option<SignatureKey>,
}
