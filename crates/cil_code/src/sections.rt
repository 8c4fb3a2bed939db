//! Sections of exception clauses (II.25.4.5).

ghost use Rattle.std.specs.Prelude.{◌≡◌, ◌+◌, ◌*◌, ◌^◌, ◌<◌, ◌≤◌, ◌++◌, length, IfOk, OnOk, IfSome, Some, None, option_map, slice_get};
ghost use Rattle.cil_code.specs.Sections.{form_of, formed_section, section_len, section_at, sections_of, clauses_in, clauses_of, clause_len};

use crate::clause::{Clause, Form, clause_of};
use file_tables::bytes::u32_at;
use plain_types::fault::NoMemory;
use std::alloc::Global;

/// A section: how it spells its clauses, how many there are, its bytes, and whether another section follows.
#[derive(Clone, Copy, Debug, PartialEq, Eq)]
pub struct Section {
    pub form: Form,
    pub count: usize,
    pub size: usize,
    pub goes_on: bool,
}

fn section_form(kind: u8) -> Option<Form>
    ensures { result ≡ form_of kind }
{
    match kind % 0x80 {
        0x01 => Some(Form::Small),
        0x41 => Some(Form::Fat),
        _ => None,
    }
}

fn section_size(form: Form, bytes: &[u8]) -> usize
    requires { 4 ≤ length bytes.now }
    ensures { result ≡ section_len form bytes.now }
{
    match form {
        Form::Small => usize::from(bytes[1]),
        Form::Fat => (u32_at(bytes, 0) / 0x100) as usize,
    }
}

/// The section at the front. None where none stands there whole.
#[tactic(auto, unfolding(crate::specs::Sections::section_at))]
fn leading_section(bytes: &[u8]) -> Option<Section>
    ensures section { result ≡ section_at bytes.now }
    ensures head { IfSome result (λ section. 4 ≤ section.size) }
    ensures fits { IfSome result (λ section. section.size ≤ length bytes.now) }
    ensures filled { IfSome result (λ section. 4 + clause_len section.form * section.count ≤ section.size) }
{
    if bytes.len() < 4 {
        return None;
    }
    let form = section_form(bytes[0])?;
    let size = section_size(form, bytes);
    if size < 4 || size > bytes.len() || (size - 4) % form.clause_len() != 0 {
        return None;
    }
    Some(Section {
        form,
        count: (size - 4) / form.clause_len(),
        size,
        goes_on: bytes[0] >= 0x80,
    })
}

/// How many clauses the sections from the front on have. None where the last one doesn't stand there whole.
pub fn clause_total(sections: &[u8]) -> Option<u32>
    requires { length sections.now < 2 ^ 32 }
    ensures { result ≡ option_map length (sections_of sections.now) }
{
    let mut total = 0;
    let mut rest = sections;
    'sections: loop {
        let section = leading_section(rest)?;
        total += section.count as u32;
        if !section.goes_on {
            return Some(total);
        }
        (_, rest) = rest.split_at(section.size);
    }
}

/// The clause of a number, counted from 0 over all sections.
pub fn numbered_clause(sections: &[u8], k: usize) -> Clause
    requires { k < length (clauses_in sections.now) }
    ensures { slice_get (clauses_in sections.now) k ≡ Some result }
{
    let mut rest = sections;
    let mut left = k;
    'sections: loop {
        let section = leading_section(rest).unwrap();
        if left < section.count {
            let at = 4 + section.form.clause_len() * left;
            return clause_of(section.form, rest, at);
        }
        left -= section.count;
        (_, rest) = rest.split_at(section.size);
    }
}

/// Adds the clauses of the section at the front.
fn push_clauses(all: &mut Vec<Clause>, section: Section, bytes: &[u8]) -> Result<(), NoMemory>
    requires filled { 4 + clause_len section.form * section.count ≤ section.size }
    requires fits { section.size ≤ length bytes.now }
    ensures { OnOk result (all.new.items ≡ all.old.items ++ clauses_of section bytes.now) }
{
    let len = section.form.clause_len();
    for k in 0..section.count {
        all.push(clause_of(section.form, bytes, 4 + len * k))?;
    }
    Ok(())
}

/// The clauses of the sections from the front on, of which there are so many.
pub fn all_clauses(alloc: Global, sections: &[u8], count: usize) -> Result<Vec<Clause>, NoMemory>
    requires { count ≡ length (clauses_in sections.now) }
    ensures { IfOk result (λ all. all.items ≡ clauses_in sections.now) }
{
    let mut all = Vec::new(alloc);
    let mut rest = sections;
    let mut left = count;
    'sections: while left > 0 {
        let section = leading_section(rest).unwrap();
        push_clauses(&mut all, section, rest)?;
        if !section.goes_on {
            return Ok(all);
        }
        left -= section.count;
        (_, rest) = rest.split_at(section.size);
    }
    Ok(all)
}
