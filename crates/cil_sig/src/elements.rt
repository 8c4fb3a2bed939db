//! The bytes of the grammar of signatures (II.23.1.16, II.23.2).

ghost use Rattle.std.specs.Prelude.{◌≡◌};
ghost use Rattle.cil_sig.specs.Elements.{element_of, names_type};

use plain_types::elem::Elem;

/// The result of a method that returns nothing.
pub const VOID: u8 = 0x01;
/// A managed pointer to the type behind it.
pub const POINTER: u8 = 0x10;
/// An array of the type behind it.
pub const ARRAY: u8 = 0x1D;
/// The first byte of a field's signature.
pub const FIELD: u8 = 0x06;
/// The first byte of a signature of locals.
pub const LOCALS: u8 = 0x07;
/// The first byte of the signature of a method without `this`.
pub const STATIC_METHOD: u8 = 0x00;
/// The first byte of the signature of a method with `this`.
pub const INSTANCE_METHOD: u8 = 0x20;

/// The most array brackets of a type.
pub const MAX_RANKS: usize = 255;
/// The most parameters or locals.
pub const MAX_COUNT: u32 = 65_535;

/// The elements of types, by their code.
pub const ELEMENTS: [Option<Elem>; 29] = [
    // 00
    None,
    None,
    Some(Elem::Bool),
    Some(Elem::Char),
    Some(Elem::I1),
    Some(Elem::U1),
    Some(Elem::I2),
    Some(Elem::U2),
    Some(Elem::I4),
    Some(Elem::U4),
    Some(Elem::I8),
    Some(Elem::U8),
    None,
    None,
    Some(Elem::String),
    None,
    // 10
    None,
    Some(Elem::Value),
    Some(Elem::Class),
    None,
    None,
    None,
    None,
    None,
    None,
    None,
    None,
    None,
    Some(Elem::Object),
];

/// The element of a code. None where the code is no element's.
#[tactic(auto, unfolding(crate::specs::Elements::element_of))]
pub fn element(code: u8) -> Option<Elem>
    ensures { result ≡ element_of code }
{
    if code < 29 {
        ELEMENTS[usize::from(code)]
    } else {
        None
    }
}

/// Whether a token follows the code of an element.
pub fn is_named(elem: Elem) -> bool
    ensures { result ≡ names_type elem }
{
    matches!(elem, Elem::Class | Elem::Value)
}
