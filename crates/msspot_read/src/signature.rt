//! Signatures of an image (ECMA-335 II.23.2, with type tokens of two bytes): each function gives the bytes behind the part
//! that it goes over, and `None` where the grammar has no case.

ghost use Rattle.std.specs.Prelude.{◌≡◌, is_some, nat_eq};
ghost use Rattle.std.specs.List.{prefix_len};
ghost use Rattle.std.specs.Option.{option_copied};
ghost use Rattle.image_form.specs.Signatures.{elem_at};
ghost use Rattle.msspot_read.specs.Forms.{ends};
ghost use Rattle.msspot_read.specs.declared.signature.Slot.TheVariants.{Local};
ghost use Rattle.msspot_read.specs.After.{after_token, after_leaf, after_type, after_place, after_result, after_slot, after_slots, after_counted, after_mark, after_method, is_array};

use crate::parts::Parts;
use crate::tokens::may_name;

const VOID: u8 = 0x01;

const POINTER: u8 = 0x10;

const VALUE: u8 = 0x11;

const CLASS: u8 = 0x12;
/// An array of the type behind it.
const ARRAY: u8 = 0x1D;

const STATIC_METHOD: u8 = 0x00;

const INSTANCE_METHOD: u8 = 0x20;

/// The most array brackets of a type.
const MAX_RANKS: usize = 255;

/// Which codes are an element's that no token follows.
const ELEMENTS: [bool; 29] = [
    // 00
    false, false, true, true, true, true, true, true, true, true, true, true, false, false, true,
    false, // 10
    false, false, false, false, false, false, false, false, false, false, false, false, true,
];

/// What is listed behind a count.
#[derive(Clone, Copy)]
pub enum Slot {
    /// A type, or a pointer to one.
    Parameter,
    /// A type alone.
    Local,
}

fn is_element(code: u8) -> bool
    ensures { result ≡ is_some (elem_at code) }
{
    if code < 29 {
        ELEMENTS[usize::from(code)]
    } else {
        false
    }
}

#[tactic(auto, unfolding(crate::specs::After::after_token))]
fn token<'a>(parts: &Parts<'_>, bytes: &'a [u8]) -> Option<&'a [u8]>
    ensures { option_copied result ≡ after_token parts.now bytes.now }
{
    let [low, high, rest @ ..] = bytes else {
        return None;
    };
    let named = u16::from(*low) + 256 * u16::from(*high);
    if may_name(parts, named) {
        Some(rest)
    } else {
        None
    }
}

#[tactic(auto, unfolding(crate::specs::After::after_leaf))]
fn leaf<'a>(parts: &Parts<'_>, code: u8, rest: &'a [u8]) -> Option<&'a [u8]>
    ensures { option_copied result ≡ after_leaf parts.now code rest.now }
{
    if code == CLASS {
        return token(parts, rest);
    }
    if code == VALUE {
        return token(parts, rest);
    }
    if is_element(code) { Some(rest) } else { None }
}

fn bracket_count(bytes: &[u8]) -> usize
    ensures { result ≡ prefix_len (λ code. nat_eq code 29) bytes.now }
{
    bytes.iter().take_while(|code| **code == ARRAY).count()
}

/// An element in array brackets.
#[tactic(auto, using(std::proofs::lemmas::Grind::common_steps, crate::proofs::SigLaws::brackets_fit, crate::proofs::SigLaws::few_brackets), unfolding(crate::specs::After::after_type, crate::specs::After::after_brackets))]
pub fn lone_type<'a>(parts: &Parts<'_>, bytes: &'a [u8]) -> Option<&'a [u8]>
    ensures { option_copied result ≡ after_type parts.now bytes.now }
{
    let few = bytes.len().min(MAX_RANKS);
    let ranks = bracket_count(&bytes[..few]);
    let [code, rest @ ..] = &bytes[ranks..] else {
        return None;
    };
    leaf(parts, *code, rest)
}

#[tactic(auto, unfolding(crate::specs::After::after_place))]
fn place<'a>(parts: &Parts<'_>, bytes: &'a [u8]) -> Option<&'a [u8]>
    ensures { option_copied result ≡ after_place parts.now bytes.now }
{
    match bytes {
        [POINTER, rest @ ..] => lone_type(parts, rest),
        _ => lone_type(parts, bytes),
    }
}

#[tactic(auto, unfolding(crate::specs::After::after_result))]
fn returned<'a>(parts: &Parts<'_>, bytes: &'a [u8]) -> Option<&'a [u8]>
    ensures { option_copied result ≡ after_result parts.now bytes.now }
{
    match bytes {
        [VOID, rest @ ..] => Some(rest),
        _ => lone_type(parts, bytes),
    }
}

fn slot_of<'a>(parts: &Parts<'_>, slot: Slot, bytes: &'a [u8]) -> Option<&'a [u8]>
    ensures { option_copied result ≡ after_slot parts.now slot bytes.now }
{
    match slot {
        Slot::Parameter => place(parts, bytes),
        Slot::Local => lone_type(parts, bytes),
    }
}

fn slots<'a>(parts: &Parts<'_>, slot: Slot, count: u16, bytes: &'a [u8]) -> Option<&'a [u8]>
    ensures { option_copied result ≡ after_slots parts.now slot count bytes.now }
{
    let mut rest = bytes;
    for _ in 0..count {
        match slot_of(parts, slot, rest) {
            None => return None,
            Some(after) => rest = after,
        }
    }
    Some(rest)
}

/// A signature of locals: their count and their types.
#[tactic(auto, unfolding(crate::specs::After::after_counted))]
pub fn locals<'a>(parts: &Parts<'_>, bytes: &'a [u8]) -> Option<&'a [u8]>
    ensures { option_copied result ≡ after_counted parts.now Local bytes.now }
{
    let [low, high, rest @ ..] = bytes else {
        return None;
    };
    let count = u16::from(*low) + 256 * u16::from(*high);
    slots(parts, Slot::Local, count, rest)
}

/// The count of a method's parameters, its result and its parameters.
#[tactic(auto, unfolding(crate::specs::After::after_mark))]
fn marked<'a>(parts: &Parts<'_>, bytes: &'a [u8]) -> Option<&'a [u8]>
    ensures { option_copied result ≡ after_mark parts.now bytes.now }
{
    let [low, high, rest @ ..] = bytes else {
        return None;
    };
    let count = u16::from(*low) + 256 * u16::from(*high);
    match returned(parts, rest) {
        None => None,
        Some(after) => slots(parts, Slot::Parameter, count, after),
    }
}

/// A method's signature: `00`, or `20` with `this`, and what follows.
#[tactic(auto, unfolding(crate::specs::After::after_method))]
pub fn method<'a>(parts: &Parts<'_>, bytes: &'a [u8]) -> Option<&'a [u8]>
    ensures { option_copied result ≡ after_method parts.now bytes.now }
{
    match bytes {
        [INSTANCE_METHOD, rest @ ..] => marked(parts, rest),
        [STATIC_METHOD, rest @ ..] => marked(parts, rest),
        _ => None,
    }
}

/// Whether nothing follows.
pub fn is_whole(behind: Option<&[u8]>) -> bool
    ensures { result ≡ ends (option_copied behind.entry) }
{
    match behind {
        None => false,
        Some(rest) => rest.is_empty(),
    }
}

/// Whether an entry is the signature of an array and nothing more.
#[tactic(auto, unfolding(crate::specs::After::is_array))]
pub fn is_array(parts: &Parts<'_>, entry: &[u8]) -> bool
    ensures { result ≡ is_array parts.now entry.now }
{
    match entry {
        [ARRAY, ..] => is_whole(lone_type(parts, entry)),
        _ => false,
    }
}
