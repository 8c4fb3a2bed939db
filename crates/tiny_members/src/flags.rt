//! The flags of types, fields and methods (ECMA-335 II.23.1.15, II.23.1.5, II.23.1.10), as an image has them.

ghost use Rattle.std.specs.Prelude.{◌≡◌, ◌<◌};
ghost use Rattle.classes.specs.Queries.{is_integer};
ghost use Rattle.image_form.specs.Form.{bit, enum_kind, plain_kind, kind_of};
ghost use Rattle.class_table.specs.Seen.{kind_seen, body_seen};
ghost use Rattle.tiny_members.specs.Rows.{body_told};

use class_table::{Body, TypeKind};
use plain_types::elem::Elem;
use set_signatures::element_at;

/// The weights of the bits that say of a type what it is.
pub const INTERFACE: u16 = 32;

pub const ABSTRACT: u16 = 64;

/// beforefieldinit
pub const LAZY: u16 = 128;

const ENUM: u16 = 256;

const VALUE: u16 = 512;

/// Below this weight stands the element.
const ELEMENT: u16 = 32;

/// The weights of the bits of members.
pub const STATIC: u16 = 1;

pub const VIRTUAL: u16 = 2;

pub const NEWSLOT: u16 = 4;

pub const ABSTRACT_METHOD: u16 = 8;

const NATIVE: u16 = 16;

/// The start of a method without code.
const NO_CODE: u16 = 0xFFFF;

/// The bit of a weight is set.
pub fn has_bit(flags: u16, weight: u16) -> bool
    requires { 0 < weight }
    ensures { result ≡ bit weight flags }
{
    flags / weight % 2 == 1
}

/// The element is an integer's.
fn is_integer(elem: Elem) -> bool
    ensures { result ≡ is_integer elem }
{
    matches!(
        elem,
        Elem::I1 | Elem::U1 | Elem::I2 | Elem::U2 | Elem::I4 | Elem::U4 | Elem::I8 | Elem::U8
    )
}

/// An enum by the element of its number.
fn enum_kind(code: Option<Elem>) -> TypeKind
    ensures { kind_seen result ≡ enum_kind code }
{
    match code {
        Some(elem) => {
            if is_integer(elem) {
                TypeKind::Enumeration(elem)
            } else {
                TypeKind::OtherValue
            }
        }
        None => TypeKind::OtherValue,
    }
}

/// A type that is no enum.
fn plain_kind(is_value: bool, code: Option<Elem>) -> TypeKind
    ensures { kind_seen result ≡ plain_kind is_value code }
{
    match code {
        Some(elem) => TypeKind::Builtin(elem),
        None => {
            if is_value {
                TypeKind::OtherValue
            } else {
                TypeKind::Reference
            }
        }
    }
}

/// What a type with these flags is as the type of a place (II.13, II.14.3).
pub fn read_kind(flags: u16) -> TypeKind
    ensures { kind_seen result ≡ kind_of flags }
{
    let code = element_at((flags % ELEMENT) as u8);
    if has_bit(flags, ENUM) {
        enum_kind(code)
    } else {
        plain_kind(has_bit(flags, VALUE), code)
    }
}

/// What runs where a method with these flags is called.
#[tactic(auto, using(crate::proofs::BodyLaws::native_same))]
pub fn read_body(flags: u16, start: u16) -> Body
    ensures { body_seen result ≡ body_told flags start }
{
    if has_bit(flags, NATIVE) {
        Body::Native(start)
    } else if start == NO_CODE {
        Body::Missing
    } else {
        Body::Code
    }
}
