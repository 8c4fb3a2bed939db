//! Operands (ECMA-335 III.1.2.2) as an image's code has them.

ghost use Rattle.std.specs.Prelude.{◌≡◌, ◌∷◌};
ghost use Rattle.std.specs.Option.{option_map};
ghost use Rattle.std.specs.Int.{w8, w16, w32, w64};
ghost use Rattle.image_form.specs.Codes.{short, SignedBy, UnsignedBy, Counted, lie_of, read_plain};
ghost use Rattle.tiny_code.specs.Numbers.{read_seen};

use crate::numbers::{eight, four, two};
use cil_opcodes::shape::Operand;

/// An operand as its bytes tell it.
#[derive(Clone, Copy, Debug)]
pub enum Number<'a> {
    /// There is none.
    Bare,
    /// A number, or the distance of a branch from the end of the instruction.
    Signed(i64),
    /// The number of an argument or a local, or a token.
    Unsigned(u16),
    /// The distances of a switch from the end of the instruction, two bytes each.
    Distances(&'a [u8]),
}

/// An operand, and what is behind it.
#[derive(Clone, Copy, Debug)]
pub struct Read<'a> {
    pub number: Number<'a>,
    pub rest: &'a [u8],
}

/// A signed number of one byte.
fn read_int8(code: &[u8]) -> Option<Read<'_>>
    ensures { option_map read_seen result ≡ read_plain short (SignedBy w8) code.now }
{
    let [byte, rest @ ..] = code else {
        return None;
    };
    Some(Read {
        number: Number::Signed(i64::from(byte.cast_signed())),
        rest,
    })
}

/// A number of one byte.
fn read_uint8(code: &[u8]) -> Option<Read<'_>>
    ensures { option_map read_seen result ≡ read_plain short (UnsignedBy 0) code.now }
{
    let [byte, rest @ ..] = code else {
        return None;
    };
    Some(Read {
        number: Number::Unsigned(u16::from(*byte)),
        rest,
    })
}

/// A number of two bytes.
#[tactic(auto, using(crate::proofs::NumberLaws::uint16_short))]
fn read_uint16(code: &[u8]) -> Option<Read<'_>>
    ensures { option_map read_seen result ≡ read_plain short (UnsignedBy 1) code.now }
{
    let [low, high, rest @ ..] = code else {
        return None;
    };
    Some(Read {
        number: Number::Unsigned(two(*low, *high)),
        rest,
    })
}

/// A signed number of two bytes.
#[tactic(auto, using(crate::proofs::NumberLaws::int16_short))]
fn read_int16(code: &[u8]) -> Option<Read<'_>>
    ensures { option_map read_seen result ≡ read_plain short (SignedBy w16) code.now }
{
    let [low, high, rest @ ..] = code else {
        return None;
    };
    Some(Read {
        number: Number::Signed(i64::from(two(*low, *high).cast_signed())),
        rest,
    })
}

/// A signed number of four bytes.
#[tactic(auto, using(crate::proofs::NumberLaws::int32_short))]
fn read_int32(code: &[u8]) -> Option<Read<'_>>
    ensures { option_map read_seen result ≡ read_plain short (SignedBy w32) code.now }
{
    let [a, b, c, d, rest @ ..] = code else {
        return None;
    };
    let number = four(two(*a, *b), two(*c, *d));
    Some(Read {
        number: Number::Signed(i64::from(number.cast_signed())),
        rest,
    })
}

/// A signed number of eight bytes.
#[tactic(auto, using(crate::proofs::NumberLaws::int64_short))]
fn read_int64(code: &[u8]) -> Option<Read<'_>>
    ensures { option_map read_seen result ≡ read_plain short (SignedBy w64) code.now }
{
    let [a, b, c, d, e, f, g, h, rest @ ..] = code else {
        return None;
    };
    let low = four(two(*a, *b), two(*c, *d));
    let high = four(two(*e, *f), two(*g, *h));
    Some(Read {
        number: Number::Signed(eight(low, high).cast_signed()),
        rest,
    })
}

/// So many distances at the front of some bytes.
#[tactic(auto, using(crate::proofs::NumberLaws::switch_short, crate::proofs::NumberLaws::switch_read))]
fn read_distances(count: u8, code: &[u8]) -> Option<Read<'_>>
    ensures { option_map read_seen result ≡ read_plain short Counted (count ∷ code.now) }
{
    let size = 2 * usize::from(count);
    if code.len() < size {
        return None;
    }
    Some(Read {
        number: Number::Distances(&code[..size]),
        rest: &code[size..],
    })
}

/// The distances of a switch, behind their count.
fn read_switch(code: &[u8]) -> Option<Read<'_>>
    ensures { option_map read_seen result ≡ read_plain short Counted code.now }
{
    let [count, rest @ ..] = code else {
        return None;
    };
    read_distances(*count, rest)
}

/// The operand of a kind at the front of some bytes; `None` exactly where it isn't whole.
pub fn read_operand(kind: Operand, code: &[u8]) -> Option<Read<'_>>
    ensures { option_map read_seen result ≡ read_plain short (lie_of short kind) code.now }
{
    match kind {
        Operand::Nothing => Some(Read {
            number: Number::Bare,
            rest: code,
        }),
        Operand::Int8 | Operand::BranchShort => read_int8(code),
        Operand::UInt8 => read_uint8(code),
        Operand::BranchLong => read_int16(code),
        Operand::Int32 => read_int32(code),
        Operand::Int64 => read_int64(code),
        Operand::Switch => read_switch(code),
        Operand::UInt16
        | Operand::TypeToken
        | Operand::FieldToken
        | Operand::MethodToken
        | Operand::StringToken
        | Operand::AnyToken => read_uint16(code),
    }
}
