//! The headers of a PE file, and the rules on them.

ghost use Rattle.std.specs.Prelude.{◌≡◌, ◌+◌, ◌<◌, ◌≤◌, ◌^◌, length, false, Some, IfOk, IfErr};
ghost use Rattle.file_tables.specs.Pe as pe;
ghost use Rattle.file_tables.specs.Rules.{rule_at, first_broken};
ghost use Rattle.pe_reader.specs.Headers.{HasHeaders, HasCliHeader};

use file_tables::MOST_FILE_BYTES;
use file_tables::bytes::{u16_at, u32_at};
use plain_types::fault::{Fault, Place, WHOLE_FILE};

/// Where the headers stand in a file that keeps the rules on them.
#[derive(Clone, Copy)]
pub struct Headers {
    /// Where the optional header begins.
    pub optional: usize,
    /// Where the section headers begin, and how many there are.
    pub sections: usize,
    pub count: u16,
}

/// A rule that the file breaks, at an offset.
pub fn broken(rule: u8, offset: usize) -> Fault
    requires { offset < 2 ^ 32 }
    ensures { result ≡ (rule_at rule offset false).fault }
{
    let place = Place {
        file: 0,
        table: WHOLE_FILE,
        row: 0,
        offset: offset as u32,
    };
    Fault { rule, place }
}

/// Rule 1.
#[tactic(auto, unfolding(file_tables::specs::Pe::is_dos))]
fn begins_as_dos(file: &[u8]) -> bool
    ensures { result ≡ pe.is_dos file.now }
{
    file.len() >= 64 && file.len() <= MOST_FILE_BYTES && file[0] == 0x4D && file[1] == 0x5A
}

/// Rule 2.
#[tactic(auto, unfolding(file_tables::specs::Pe::is_pe))]
fn has_signature(file: &[u8], header: usize) -> bool
    requires place { header ≡ pe.pe_header file.now }
    requires small { header < 2 ^ 32 }
    ensures { result ≡ pe.is_pe file.now }
{
    header + 24 <= file.len() && u32_at(file, header) == 0x4550
}

/// Rule 3.
#[tactic(auto, unfolding(file_tables::specs::Pe::has_optional_header, file_tables::specs::Pe::section_headers))]
fn has_directories(file: &[u8], optional: usize, size: u16) -> bool
    requires place { optional ≡ pe.optional_header file.now }
    requires len { size ≡ pe.optional_size file.now }
    requires within { optional ≤ length file.now }
    ensures { result ≡ pe.has_optional_header file.now }
{
    size >= 216 && optional + usize::from(size) <= file.len() && u16_at(file, optional) == 0x10B
}

/// The first broken rule of 1 to 4, or where the headers stand.
#[tactic(auto, unfolding(file_tables::specs::Pe::pe_rules, file_tables::specs::Pe::is_dos, file_tables::specs::Pe::is_pe, file_tables::specs::Pe::has_optional_header, file_tables::specs::Pe::pe_header, file_tables::specs::Pe::optional_header, file_tables::specs::Pe::optional_size, file_tables::specs::Pe::section_headers, file_tables::specs::Pe::section_count, file_tables::specs::Pe::has_section_headers))]
pub fn read_headers(file: &[u8]) -> Result<Headers, Fault>
    ensures broken { IfErr result (λ fault. first_broken (pe.pe_rules file.now) ≡ Some fault) }
    ensures kept { IfOk result (HasHeaders file.now) }
{
    if !begins_as_dos(file) {
        return Err(broken(1, 0));
    }
    let header = u32_at(file, 60) as usize;
    if !has_signature(file, header) {
        return Err(broken(2, 60));
    }
    let optional = header + 24;
    let size = u16_at(file, header + 20);
    if !has_directories(file, optional, size) {
        return Err(broken(3, optional));
    }
    let sections = optional + usize::from(size);
    let count = u16_at(file, header + 6);
    if sections + 40 * usize::from(count) > file.len() {
        return Err(broken(4, sections));
    }
    Ok(Headers {
        optional,
        sections,
        count,
    })
}
