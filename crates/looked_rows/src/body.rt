//! The body of a method, by its RVA (ECMA-335 II.25.4).

ghost use Rattle.std.specs.Prelude.{◌≡◌, ◌<◌, ◌^◌, length};
ghost use Rattle.world_rows.specs.Lines.{body_part, body_in, is_aligned, is_locals_token};
ghost use Rattle.looked_rows.specs.Looked.{file_with};

use cil_code::{Body, body};
use cil_tables::Tables;
use file_tables::numbers::STAND_ALONE_SIG;
use pe_reader::SectionCursor;

/// A fat header begins at a multiple of four.
fn is_aligned(rva: u32, bytes: &[u8]) -> bool
    ensures { result ≡ is_aligned rva bytes.now }
{
    let first = bytes.first().copied().unwrap_or(0);
    first % 4 == 2 || rva % 4 == 0
}

/// The token of locals is 0, or names a signature.
fn is_locals_token(tables: &Tables<'_>, token: u32) -> bool
    ensures { result ≡ is_locals_token tables.now token }
{
    let row = token % 0x100_0000;
    token == 0
        || (token / 0x100_0000 == u32::from(STAND_ALONE_SIG)
            && 1 <= row
            && row <= tables.rows(STAND_ALONE_SIG))
}

/// The body whose bytes begin at an RVA.
#[tactic(auto, using(crate::proofs::BodyLaws::none_faulty, crate::proofs::BodyLaws::one_read), unfolding(cil_code::specs::Bodies::body_of))]
fn sound_body<'a>(tables: &Tables<'_>, rva: u32, bytes: &'a [u8]) -> Option<Body<'a>>
    requires { length bytes.now < 2 ^ 32 }
    ensures { result ≡ body_in tables.now rva bytes.now }
{
    let Ok(body) = body(bytes) else {
        return None;
    };
    if is_aligned(rva, bytes) && is_locals_token(tables, body.locals_token()) {
        Some(body)
    } else {
        None
    }
}

/// The body at an RVA; `None` exactly where the RVA is 0 or in no section, where header, size or sections of the body are
/// faulty, where a fat header stands at no multiple of four, and where the token of the locals names no signature.
#[tactic(auto, using(crate::proofs::BodyLaws::no_address, crate::proofs::BodyLaws::no_section, crate::proofs::BodyLaws::in_section))]
pub fn read_body<'a>(
    sections: &mut SectionCursor<'a>,
    tables: &Tables<'_>,
    rva: u32,
) -> Option<Body<'a>>
    ensures body { result ≡ body_part (file_with sections.old tables.now) rva }
    ensures same { sections.new ≡ sections.old }
{
    if rva == 0 {
        return None;
    }
    let bytes = sections.tail(rva)?;
    sound_body(tables, rva, bytes)
}
