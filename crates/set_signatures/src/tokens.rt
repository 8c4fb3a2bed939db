//! What the type tokens of one image name.

ghost use Rattle.std.specs.Prelude.{◌≡◌, ◌≤◌};
ghost use Rattle.std.specs.Option.{option_map};
ghost use Rattle.machine.specs.Throw.{on_some};
ghost use Rattle.image_form.specs.Signatures.{elem_at};
ghost use Rattle.member_keys.specs.Seen.{class_seen};
ghost use Rattle.scope_walk.specs.Walk.{value_at};
ghost use Rattle.set_signatures.specs.Meant.{class_named, plain_of, own_named};

use member_keys::ClassId;
use plain_types::elem::Elem;

/// The least token of a reference, and of a type specification.
const REFERENCE: u16 = 0x4000;

const SPECIFICATION: u16 = 0x8000;

/// An image's number in its set, how many types it has, and what each of its references to types names.
#[derive(Clone, Copy, Debug)]
pub struct Tokens<'t> {
    pub file: u32,
    pub types: u32,
    pub references: &'t [Option<ClassId>],
}

/// A type of the image itself.
fn own_class(tokens: &Tokens<'_>, row: u16) -> Option<ClassId>
    ensures { option_map class_seen result ≡ own_named tokens.now row }
{
    let row = u32::from(row);
    if row < tokens.types {
        Some(ClassId {
            file: tokens.file,
            row,
        })
    } else {
        None
    }
}

/// What a reference of the image names.
fn referenced(tokens: &Tokens<'_>, row: u16) -> Option<ClassId>
    ensures { option_map class_seen result ≡ value_at tokens.now.references.now row }
{
    match tokens.references.get(usize::from(row)) {
        Some(class) => *class,
        None => None,
    }
}

/// The class that a token of a signature names; `None` where there is none, and for a type specification.
#[tactic(auto, using(crate::proofs::TokenLaws::own_token, crate::proofs::TokenLaws::ref_token, crate::proofs::TokenLaws::spec_token))]
pub fn class_of(tokens: &Tokens<'_>, word: u16) -> Option<ClassId>
    ensures { option_map class_seen result ≡ on_some (plain_of tokens.now word) (class_named tokens.now) }
{
    if word < REFERENCE {
        own_class(tokens, word)
    } else if word < SPECIFICATION {
        referenced(tokens, word - REFERENCE)
    } else {
        None
    }
}

/// The elements by the codes that alone spell them (II.23.1.16).
const ELEMENTS: [Option<Elem>; 29] = [
    None,
    None,
    Some(Elem::Bool),
    Some(Elem::Char),
    Some(Elem::I1),
    Some(Elem::U1),
    Some(Elem::I2),
    Some(Elem::U2),
    Some(Elem::I4),
    Some(Elem::U4),
    Some(Elem::I8),
    Some(Elem::U8),
    None,
    None,
    Some(Elem::String),
    None,
    None,
    None,
    None,
    None,
    None,
    None,
    None,
    None,
    None,
    None,
    None,
    None,
    Some(Elem::Object),
];

/// The element that a code alone spells.
pub fn element_at(code: u8) -> Option<Elem>
    ensures { result ≡ elem_at code }
{
    if code < 29 {
        ELEMENTS[usize::from(code)]
    } else {
        None
    }
}
