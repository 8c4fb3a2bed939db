//! Headers of bodies (II.25.4.1 to II.25.4.4).

ghost use Rattle.std.specs.Prelude.{◌≡◌, ◌+◌, ◌^◌, ◌<◌, ◌≤◌, length, IfSome, option_map};
ghost use Rattle.cil_code.specs.Sections.{clauses_in};
ghost use Rattle.cil_code.specs.Bodies.{clauses_behind, tiny_body, fat_body, body_at, body_of};

use crate::fault::{CodeFault, FAULTY_BODY};
use crate::method_body::Body;
use crate::sections::clause_total;
use file_tables::bytes::{u16_at, u32_at};

#[tactic(auto, using(crate::proofs::Unrolled::no_clauses), unfolding(crate::specs::Bodies::tiny_body))]
fn tiny(bytes: &[u8]) -> Option<Body<'_>>
    ensures { result ≡ tiny_body bytes.now }
{
    if bytes.is_empty() {
        return None;
    }
    let size = usize::from(bytes[0] / 4);
    let (_, behind) = bytes.split_at(1);
    if behind.len() < size {
        return None;
    }
    let (code, _) = behind.split_at(size);
    let (sections, _) = bytes.split_at(0);
    Some(Body::of_parts(8, 0, code, sections, 0))
}

/// The sections behind code that ends at this offset, and how many clauses they have.
#[tactic(auto, using(crate::proofs::Unrolled::no_clauses, crate::proofs::Unrolled::none_past), unfolding(crate::specs::Bodies::clauses_behind))]
fn sections_behind(bytes: &[u8], end: usize) -> Option<(&[u8], u32)>
    requires head { 2 ≤ length bytes.now }
    requires near { length bytes.now < 2 ^ 32 }
    requires inside { end ≤ length bytes.now }
    ensures clauses { option_map (λ x. clauses_in x.0.now) result ≡ clauses_behind bytes.now end }
    ensures count { IfSome result (λ x. x.1 ≡ length (clauses_in x.0.now)) }
{
    if u16_at(bytes, 0) / 0x8 % 2 == 0 {
        let (sections, _) = bytes.split_at(0);
        return Some((sections, 0));
    }
    let start = (end + 3) / 4 * 4;
    if start > bytes.len() {
        return None;
    }
    let (_, sections) = bytes.split_at(start);
    let count = clause_total(sections)?;
    Some((sections, count))
}

#[tactic(auto, unfolding(crate::specs::Bodies::fat_body))]
fn fat(bytes: &[u8]) -> Option<Body<'_>>
    requires { length bytes.now < 2 ^ 32 }
    ensures { result ≡ fat_body bytes.now }
{
    if bytes.len() < 12 || u16_at(bytes, 0) / 0x1000 != 3 {
        return None;
    }
    let size = u32_at(bytes, 4) as usize;
    if bytes.len() - 12 < size {
        return None;
    }
    let (sections, clause_count) = sections_behind(bytes, 12 + size)?;
    let (_, behind) = bytes.split_at(12);
    let (code, _) = behind.split_at(size);
    let max_stack = u16_at(bytes, 2);
    let locals_token = u32_at(bytes, 8);
    Some(Body::of_parts(max_stack, locals_token, code, sections, clause_count))
}

#[tactic(auto, unfolding(crate::specs::Bodies::body_at))]
fn whole_body(bytes: &[u8]) -> Option<Body<'_>>
    requires { length bytes.now < 2 ^ 32 }
    ensures { result ≡ body_at bytes.now }
{
    let first = *bytes.first()?;
    match first % 4 {
        2 => tiny(bytes),
        3 => fat(bytes),
        _ => None,
    }
}

/// The body at the front of these bytes, which reach from its first byte to the last of its section in the file.
///
/// Rule 40 where its header, size or sections are faulty. That a fat header's address is a multiple of 4, and that the
/// token of the locals names a signature, can't be seen here.
#[tactic(auto, unfolding(crate::specs::Bodies::body_of))]
pub fn body(bytes: &[u8]) -> Result<Body<'_>, CodeFault>
    requires { length bytes.now < 2 ^ 32 }
    ensures { result ≡ body_of bytes.now }
{
    whole_body(bytes).ok_or(CodeFault {
        rule: FAULTY_BODY,
        offset: 0,
    })
}
