//! The signatures of fields and methods.

ghost use Rattle.std.specs.Prelude.{◌≡◌, IfOk, Some};
ghost use Rattle.std.specs.Option.{option_map};
ghost use Rattle.member_keys.specs.Seen.{type_seen, signature_seen};
ghost use Rattle.set_signatures.specs.Meant.{type_read_seen, places_read_seen, joined, whole_of, field_told, marked_meant, method_told};

use crate::parts::{PlacesRead, TypeRead, lone_type, places, returned};
use crate::tokens::Tokens;
use member_keys::{SignatureKey, TypeKey};
use plain_types::fault::NoMemory;
use std::alloc::Global;

const STATIC_METHOD: u8 = 0x00;

const INSTANCE_METHOD: u8 = 0x20;

/// A type behind which nothing follows.
fn whole_type(read: &TypeRead<'_>) -> Option<TypeKey>
    ensures { option_map type_seen result ≡ whole_of (Some (type_read_seen read.now)) }
{
    if read.rest.is_empty() {
        Some(read.of)
    } else {
        None
    }
}

/// The type of a field (II.23.2.4); `None` where the bytes have no form, or a token names nothing.
pub fn field_type(tokens: &Tokens<'_>, bytes: &[u8]) -> Option<TypeKey>
    ensures { option_map type_seen result ≡ field_told tokens.now bytes.now }
{
    match lone_type(tokens, bytes) {
        Some(read) => whole_type(&read),
        None => None,
    }
}

/// A signature behind whose parameters nothing follows.
fn finished(
    has_this: bool,
    returns: Option<TypeKey>,
    parameters: PlacesRead<'_>,
) -> Option<SignatureKey>
    ensures { option_map signature_seen result ≡ option_map (joined has_this (option_map type_seen returns)) (whole_of (Some (places_read_seen parameters.entry))) }
{
    if parameters.rest.is_empty() {
        Some(SignatureKey {
            has_this,
            returns,
            parameters: parameters.places,
        })
    } else {
        None
    }
}

/// The count of a method's parameters, its result and its parameters.
#[tactic(auto, using(crate::proofs::MemberLaws::marked_none))]
fn marked(
    alloc: Global,
    tokens: &Tokens<'_>,
    has_this: bool,
    bytes: &[u8],
) -> Result<Option<SignatureKey>, NoMemory>
    ensures { IfOk result (λ key. option_map signature_seen key ≡ marked_meant tokens.now has_this bytes.now) }
{
    let [low, high, rest @ ..] = bytes else {
        return Ok(None);
    };
    let count = u16::from(*low) + 256 * u16::from(*high);
    let Some(result) = returned(tokens, rest) else {
        return Ok(None);
    };
    let listed = places(alloc, tokens, count, result.rest)?;
    match listed {
        Some(parameters) => Ok(finished(has_this, result.returns, parameters)),
        None => Ok(None),
    }
}

/// The signature of a method (II.23.2.1): `00`, or `20` with `this`, and what follows; `None` where the bytes have no form,
/// or a token names nothing.
#[tactic(auto, using(crate::proofs::MemberLaws::method_none, crate::proofs::MemberLaws::method_empty))]
pub fn method_signature(
    alloc: Global,
    tokens: &Tokens<'_>,
    bytes: &[u8],
) -> Result<Option<SignatureKey>, NoMemory>
    ensures { IfOk result (λ key. option_map signature_seen key ≡ method_told tokens.now bytes.now) }
{
    let [code, rest @ ..] = bytes else {
        return Ok(None);
    };
    if *code == INSTANCE_METHOD {
        marked(alloc, tokens, true, rest)
    } else if *code == STATIC_METHOD {
        marked(alloc, tokens, false, rest)
    } else {
        Ok(None)
    }
}
