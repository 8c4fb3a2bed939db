//! The coded indexes that tokens stand for (ECMA-335 II.24.2.6).

ghost use Rattle.std.specs.Prelude.{◌≡◌};
ghost use Rattle.cil_layout.specs.Numbers.{token_row, type_index, parent_index, scope_index};

use cil_layout::rows::{ASSEMBLY_REF, METHOD_DEF, TYPE_REF, TYPE_SPEC};

/// The TypeDefOrRef of a token (ECMA-335 II.24.2.6).
pub fn type_of(token: u32) -> u32
    ensures { result ≡ type_index token }
{
    let tag = match (token / 0x0100_0000) as u8 {
        TYPE_REF => 1,
        TYPE_SPEC => 2,
        _ => 0,
    };
    token % 0x0100_0000 * 4 + tag
}

/// The MemberRefParent of a token.
pub fn parent_of(token: u32) -> u32
    ensures { result ≡ parent_index token }
{
    let tag = match (token / 0x0100_0000) as u8 {
        TYPE_REF => 1,
        METHOD_DEF => 3,
        TYPE_SPEC => 4,
        _ => 0,
    };
    token % 0x0100_0000 * 8 + tag
}

/// The ResolutionScope of a token.
pub fn scope_of(token: u32) -> u32
    ensures { result ≡ scope_index token }
{
    let tag = match (token / 0x0100_0000) as u8 {
        ASSEMBLY_REF => 2,
        TYPE_REF => 3,
        _ => 0,
    };
    token % 0x0100_0000 * 4 + tag
}

/// The row of a token.
pub fn row_of(token: u32) -> u32
    ensures { result ≡ token_row token }
{
    token % 0x0100_0000
}
