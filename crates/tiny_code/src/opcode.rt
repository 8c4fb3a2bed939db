//! Opcodes (ECMA-335 III.1.2.1).

ghost use Rattle.std.specs.Prelude.{◌≡◌};
ghost use Rattle.std.specs.Option.{option_map};
ghost use Rattle.image_form.specs.Codes.{read_opcode};

/// The byte behind which an opcode has a second one.
const PREFIX: u8 = 0xFE;

/// The opcodes of two bytes begin here.
const TWO_BYTES: u16 = 0xFE00;

/// An opcode, and what is behind it.
#[derive(Clone, Copy, Debug)]
pub struct Opcode<'a> {
    /// The byte, or 0xFE00 and the byte behind FE.
    pub op: u16,
    pub rest: &'a [u8],
}

/// The opcode at the front of some bytes; `None` exactly where it isn't whole.
pub fn read_opcode(code: &[u8]) -> Option<Opcode<'_>>
    ensures { option_map (λ o. (o.op, o.rest.now)) result ≡ read_opcode code.now }
{
    let [first, rest @ ..] = code else {
        return None;
    };
    if *first != PREFIX {
        return Some(Opcode {
            op: u16::from(*first),
            rest,
        });
    }
    let [second, rest @ ..] = rest else {
        return None;
    };
    Some(Opcode {
        op: TWO_BYTES + u16::from(*second),
        rest,
    })
}
