//! Exception clauses (II.25.4.6).

ghost use Rattle.std.specs.Prelude.{◌≡◌, ◌+◌, ◌*◌, ◌≤◌, length};
ghost use Rattle.cil_code.specs.Sections.{clause_at, clause_len, region_end};

use file_tables::bytes::{u16_at, u32_at};

/// An exception clause. Regions are offsets in the code, from their first byte to the one behind their last.
#[derive(Clone, Copy, Debug, PartialEq, Eq)]
pub struct Clause {
    /// 0 a catch, 1 a filter, 2 a finally, 4 a fault. 65,535 stands also for each greater number.
    pub kind: u16,
    pub try_start: u32,
    /// 2^32 - 1, which is past the end of any code, stands also for each greater number.
    pub try_end: u32,
    /// The start of the handler.
    pub start: u32,
    /// The end of the handler. 2^32 - 1, which is past the end of any code, stands also for each greater number.
    pub end: u32,
    /// The class that a catch takes.
    pub token: u32,
}

/// How a section spells its clauses.
#[derive(Clone, Copy, Debug, PartialEq, Eq)]
pub enum Form {
    /// In twelve bytes each.
    Small,
    /// In twenty-four bytes each.
    Fat,
}

impl Form {
    ghost use Rattle.cil_code.specs.Sections.{clause_len};

    pub fn clause_len(self) -> usize
        ensures { result ≡ clause_len self }
    {
        match self {
            Form::Small => 12,
            Form::Fat => 24,
        }
    }
}

fn end_of(start: u32, len: u32) -> u32
    ensures { result ≡ region_end start len }
{
    start.saturating_add(len)
}

#[tactic(auto, unfolding(crate::specs::Sections::clause_at))]
fn small_clause(bytes: &[u8], at: usize) -> Clause
    requires { at + 12 ≤ length bytes.now }
    ensures { result ≡ clause_at Form.Small bytes.now at }
{
    let try_start = u32::from(u16_at(bytes, at + 2));
    let start = u32::from(u16_at(bytes, at + 5));
    Clause {
        kind: u16_at(bytes, at),
        try_start,
        try_end: try_start + u32::from(bytes[at + 4]),
        start,
        end: start + u32::from(bytes[at + 7]),
        token: u32_at(bytes, at + 8),
    }
}

#[tactic(auto, unfolding(crate::specs::Sections::clause_at))]
fn fat_clause(bytes: &[u8], at: usize) -> Clause
    requires { at + 24 ≤ length bytes.now }
    ensures { result ≡ clause_at Form.Fat bytes.now at }
{
    let try_start = u32_at(bytes, at + 4);
    let start = u32_at(bytes, at + 12);
    Clause {
        kind: u32_at(bytes, at).min(0xFFFF) as u16,
        try_start,
        try_end: end_of(try_start, u32_at(bytes, at + 8)),
        start,
        end: end_of(start, u32_at(bytes, at + 16)),
        token: u32_at(bytes, at + 20),
    }
}

/// The clause of a form at an offset.
pub fn clause_of(form: Form, bytes: &[u8], at: usize) -> Clause
    requires { at + clause_len form ≤ length bytes.now }
    ensures { result ≡ clause_at form bytes.now at }
{
    match form {
        Form::Small => small_clause(bytes, at),
        Form::Fat => fat_clause(bytes, at),
    }
}
