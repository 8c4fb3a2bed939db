//! The parts of a signature: each function gives what the first bytes mean, and the bytes behind them; `None` where the
//! grammar has no case, or a token names nothing.

ghost use Rattle.std.specs.Prelude.{◌≡◌, ◌+◌, ◌≤◌, ◌*◌, IfOk, nat_eq, length};
ghost use Rattle.std.specs.List.{prefix_len};
ghost use Rattle.std.specs.Option.{option_map};
ghost use Rattle.classes.specs.Classes.{ClassToken, ValueToken};
ghost use Rattle.set_signatures.specs.Meant.{token_read, with_class, with_place, with_result, leaf_told, brackets, bracketed, type_told, place_told, result_told, places_told, class_read_seen, element_read_seen, type_read_seen, place_read_seen, result_read_seen, places_read_seen};

use crate::tokens::{Tokens, class_of, element_at};
use member_keys::{ClassId, ElementKey, PlaceKey, TypeKey};
use plain_types::fault::NoMemory;
use std::alloc::Global;

const VOID: u8 = 0x01;

const POINTER: u8 = 0x10;

const VALUE: u8 = 0x11;

const CLASS: u8 = 0x12;

/// An array of the type behind it.
const ARRAY: u8 = 0x1D;

/// The most array brackets of a type.
const MAX_RANKS: usize = 255;

/// A class, and the bytes behind its token.
#[derive(Clone, Copy)]
pub struct ClassRead<'a> {
    pub class: ClassId,
    pub rest: &'a [u8],
}

#[derive(Clone, Copy)]
pub struct ElementRead<'a> {
    pub element: ElementKey,
    pub rest: &'a [u8],
}

#[derive(Clone, Copy)]
pub struct TypeRead<'a> {
    pub of: TypeKey,
    pub rest: &'a [u8],
}

#[derive(Clone, Copy)]
pub struct PlaceRead<'a> {
    pub place: PlaceKey,
    pub rest: &'a [u8],
}

/// A result, which is no type where it is void.
#[derive(Clone, Copy)]
pub struct ResultRead<'a> {
    pub returns: Option<TypeKey>,
    pub rest: &'a [u8],
}

#[derive(Drop)]
pub struct PlacesRead<'a> {
    pub places: Vec<PlaceKey>,
    pub rest: &'a [u8],
}

/// The class of a token.
#[tactic(auto, unfolding(crate::specs::Meant::token_read))]
fn token<'a>(tokens: &Tokens<'_>, bytes: &'a [u8]) -> Option<ClassRead<'a>>
    ensures { option_map class_read_seen result ≡ token_read tokens.now bytes.now }
{
    let [low, high, rest @ ..] = bytes else {
        return None;
    };
    let word = u16::from(*low) + 256 * u16::from(*high);
    match class_of(tokens, word) {
        Some(class) => Some(ClassRead { class, rest }),
        None => None,
    }
}

/// A reference type, by its token.
fn class_leaf<'a>(tokens: &Tokens<'_>, rest: &'a [u8]) -> Option<ElementRead<'a>>
    ensures { option_map element_read_seen result ≡ with_class ClassToken (token_read tokens.now rest.now) }
{
    match token(tokens, rest) {
        Some(read) => Some(ElementRead {
            element: ElementKey::Class(read.class),
            rest: read.rest,
        }),
        None => None,
    }
}

/// A value type, by its token.
fn value_leaf<'a>(tokens: &Tokens<'_>, rest: &'a [u8]) -> Option<ElementRead<'a>>
    ensures { option_map element_read_seen result ≡ with_class ValueToken (token_read tokens.now rest.now) }
{
    match token(tokens, rest) {
        Some(read) => Some(ElementRead {
            element: ElementKey::Value(read.class),
            rest: read.rest,
        }),
        None => None,
    }
}

/// A type without brackets, of which the first byte is known.
#[tactic(auto, using(crate::proofs::PartLaws::leaf_class, crate::proofs::PartLaws::leaf_value, crate::proofs::PartLaws::leaf_spelt))]
fn leaf<'a>(tokens: &Tokens<'_>, code: u8, rest: &'a [u8]) -> Option<ElementRead<'a>>
    ensures { option_map element_read_seen result ≡ leaf_told tokens.now code rest.now }
{
    if code == CLASS {
        return class_leaf(tokens, rest);
    }
    if code == VALUE {
        return value_leaf(tokens, rest);
    }
    match element_at(code) {
        Some(elem) => Some(ElementRead {
            element: ElementKey::Spelt(elem),
            rest,
        }),
        None => None,
    }
}

fn bracket_count(bytes: &[u8]) -> usize
    ensures { result ≡ prefix_len (λ code. nat_eq code 29) bytes.now }
{
    bytes.iter().take_while(|code| **code == ARRAY).count()
}

/// How many array brackets stand in front, at most 255.
#[tactic(auto, using(crate::proofs::PartLaws::few_brackets, crate::proofs::PartLaws::brackets_fit))]
fn ranks_of(bytes: &[u8]) -> usize
    ensures ranks { result ≡ brackets bytes.now }
    ensures fit { result ≤ length bytes.now }
    ensures few { result ≤ 255 }
{
    let few = bytes.len().min(MAX_RANKS);
    bracket_count(&bytes[..few])
}

/// A type behind so many array brackets.
#[tactic(auto, using(crate::proofs::PartLaws::no_inner, crate::proofs::PartLaws::inner_is))]
fn inner_type<'a>(tokens: &Tokens<'_>, ranks: usize, bytes: &'a [u8]) -> Option<TypeRead<'a>>
    requires { ranks ≤ 255 }
    ensures { option_map type_read_seen result ≡ bracketed tokens.now ranks bytes.now }
{
    let [code, rest @ ..] = bytes else {
        return None;
    };
    match leaf(tokens, *code, rest) {
        Some(read) => Some(TypeRead {
            of: TypeKey {
                ranks: ranks as u16,
                element: read.element,
            },
            rest: read.rest,
        }),
        None => None,
    }
}

/// An element in array brackets.
pub fn lone_type<'a>(tokens: &Tokens<'_>, bytes: &'a [u8]) -> Option<TypeRead<'a>>
    ensures { option_map type_read_seen result ≡ type_told tokens.now bytes.now }
{
    let ranks = ranks_of(bytes);
    inner_type(tokens, ranks, &bytes[ranks..])
}

/// A parameter of a type, or a pointer to one.
fn place_of<'a>(tokens: &Tokens<'_>, by_ref: bool, bytes: &'a [u8]) -> Option<PlaceRead<'a>>
    ensures { option_map place_read_seen result ≡ with_place by_ref (type_told tokens.now bytes.now) }
{
    match lone_type(tokens, bytes) {
        Some(read) => Some(PlaceRead {
            place: PlaceKey {
                by_ref,
                of: read.of,
            },
            rest: read.rest,
        }),
        None => None,
    }
}

/// A parameter: a type, or a pointer to one.
#[tactic(auto, using(crate::proofs::PartLaws::direct_place, crate::proofs::PartLaws::empty_place))]
fn place<'a>(tokens: &Tokens<'_>, bytes: &'a [u8]) -> Option<PlaceRead<'a>>
    ensures { option_map place_read_seen result ≡ place_told tokens.now bytes.now }
{
    let [code, rest @ ..] = bytes else {
        return None;
    };
    if *code == POINTER {
        place_of(tokens, true, rest)
    } else {
        place_of(tokens, false, bytes)
    }
}

/// A result that is a type.
fn typed<'a>(tokens: &Tokens<'_>, bytes: &'a [u8]) -> Option<ResultRead<'a>>
    ensures { option_map result_read_seen result ≡ with_result (type_told tokens.now bytes.now) }
{
    match lone_type(tokens, bytes) {
        Some(read) => Some(ResultRead {
            returns: Some(read.of),
            rest: read.rest,
        }),
        None => None,
    }
}

/// A result.
#[tactic(auto, using(crate::proofs::PartLaws::typed_result, crate::proofs::PartLaws::empty_result))]
pub fn returned<'a>(tokens: &Tokens<'_>, bytes: &'a [u8]) -> Option<ResultRead<'a>>
    ensures { option_map result_read_seen result ≡ result_told tokens.now bytes.now }
{
    let [code, rest @ ..] = bytes else {
        return None;
    };
    if *code == VOID {
        Some(ResultRead {
            returns: None,
            rest,
        })
    } else {
        typed(tokens, bytes)
    }
}

/// So many parameters.
#[tactic(auto, using(crate::proofs::PartLaws::places_begin, crate::proofs::PartLaws::places_done))]
pub fn places<'a>(
    alloc: Global,
    tokens: &Tokens<'_>,
    count: u16,
    bytes: &'a [u8],
) -> Result<Option<PlacesRead<'a>>, NoMemory>
    ensures { IfOk result (λ read. option_map places_read_seen read ≡ places_told tokens.now count bytes.now) }
{
    let mut places = Vec::new(alloc);
    let mut rest = bytes;
    for _ in 0..count {
        match place(tokens, rest) {
            None => return Ok(None),
            Some(read) => {
                places.push(read.place)?;
                rest = read.rest;
            }
        }
    }
    Ok(Some(PlacesRead { places, rest }))
}
