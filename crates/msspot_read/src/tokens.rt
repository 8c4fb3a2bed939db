//! The tokens of an image: type rows, references and type specifications.

ghost use Rattle.std.specs.Prelude.{◌≡◌, is_some};
ghost use Rattle.image_form.specs.Whole.{token_in, scope_in};
ghost use Rattle.msspot_read.specs.Forms.{plain_in};

use crate::parts::Parts;

/// The least token of a reference, and of a type specification.
const REFERENCE: u16 = 0x4000;

const SPECIFICATION: u16 = 0x8000;

/// The tables whose rows tokens name.
const ASSEMBLY_REF: u8 = 0;

const TYPE_REF: u8 = 1;

const TYPE_DEF: u8 = 4;

const TYPE_SPEC: u8 = 9;

/// Whether the row is there that a type token names.
#[tactic(auto, using(crate::proofs::TokenLaws::own_token, crate::proofs::TokenLaws::ref_token, crate::proofs::TokenLaws::spec_token))]
pub fn has_type(parts: &Parts<'_>, token: u16) -> bool
    ensures { result ≡ is_some (token_in parts.now token) }
{
    if token < REFERENCE {
        token < parts.rows(TYPE_DEF)
    } else if token < SPECIFICATION {
        token - REFERENCE < parts.rows(TYPE_REF)
    } else {
        token - SPECIFICATION < parts.rows(TYPE_SPEC)
    }
}

/// Whether a token may stand in a signature: its row is there, and is no type specification.
#[tactic(auto, using(crate::proofs::TokenLaws::plain_token, crate::proofs::TokenLaws::no_plain_token))]
pub fn may_name(parts: &Parts<'_>, token: u16) -> bool
    ensures { result ≡ is_some (plain_in parts.now token) }
{
    if token < SPECIFICATION {
        has_type(parts, token)
    } else {
        false
    }
}

/// Whether the row is there that the scope of a type reference names.
#[tactic(auto, using(crate::proofs::TokenLaws::scope_assembly, crate::proofs::TokenLaws::scope_inside))]
pub fn has_scope(parts: &Parts<'_>, scope: u16) -> bool
    ensures { result ≡ is_some (scope_in parts.now scope) }
{
    if scope < REFERENCE {
        scope < parts.rows(ASSEMBLY_REF)
    } else {
        scope - REFERENCE < parts.rows(TYPE_REF)
    }
}
