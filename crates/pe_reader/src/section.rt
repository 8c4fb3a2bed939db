//! Section headers, read in place.

ghost use Rattle.std.specs.Prelude.{◌≡◌, ◌+◌, ◌-◌, ◌*◌, ◌^◌, ◌<◌, ◌≤◌, length, IsTrue, IfSome, Some};
ghost use Rattle.std.specs.Option.{option_map};
ghost use Rattle.file_tables.specs.Bytes.{range_of};
ghost use Rattle.file_tables.specs.Pe.{section_at, holds, section_of, place_in, place_of};
ghost use Rattle.pe_reader.specs.Seen.{seen, sections_from};

use file_tables::bytes::u32_at;

/// The header of a section (ECMA-335 II.25.3).
#[derive(Clone, Copy)]
pub struct Section {
    pub address: u32,
    pub size: u32,
    pub pointer: u32,
}

/// The section whose header begins at an offset.
pub fn read(file: &[u8], at: usize) -> Section
    requires { at + 40 ≤ length file.now }
    ensures { seen result ≡ section_at file.now at }
{
    Section {
        address: u32_at(file, at + 12),
        size: u32_at(file, at + 16),
        pointer: u32_at(file, at + 20),
    }
}

/// The section holds the range, in its raw data and in the file.
#[tactic(auto, unfolding(file_tables::specs::Pe::holds))]
fn covers(s: Section, file_length: usize, rva: u32, len: u32) -> bool
    ensures answer { result ≡ holds file_length rva len (seen s) }
    ensures begins { IsTrue result → s.address ≤ rva }
    ensures within { IsTrue result → rva + len ≤ s.address + s.size }
    ensures ends { IsTrue result → s.pointer + (rva - s.address) + len ≤ file_length }
{
    if rva < s.address {
        return false;
    }
    let skipped = (rva - s.address) as u64;
    let in_section = rva as u64 + len as u64 <= s.address as u64 + s.size as u64;
    let in_file = s.pointer as u64 + skipped + len as u64 <= file_length as u64;
    in_section && in_file
}

/// From the byte at an RVA to the last byte of the section that is in the file.
#[tactic(auto, using(crate::proofs::PeLaws::take_within))]
pub fn rest_of(file: &[u8], section: Section, rva: u32) -> &[u8]
    requires begins { section.address ≤ rva }
    requires within { rva < section.address + section.size }
    requires ends { section.pointer + (rva - section.address) < length file.now }
    ensures bytes { result.now ≡ range_of file.now (place_in (seen section) rva) (section.size - (rva - section.address)) }
    ensures short { length result.now < 2 ^ 32 }
{
    let skipped = rva - section.address;
    let at = section.pointer as usize + skipped as usize;
    let end = file.len().min(at + (section.size - skipped) as usize);
    &file[at..end]
}

/// The first section, in header order, that holds the range.
pub fn section_holding(
    file: &[u8],
    headers: usize,
    count: u16,
    rva: u32,
    len: u32,
) -> Option<Section>
    requires { headers + 40 * count ≤ length file.now }
    ensures first { option_map seen result ≡ section_of (length file.now) (sections_from file.now headers count) rva len }
    // It does hold it.
    ensures holds { IfSome result (λ s. (s.address ≤ rva) × (rva + len ≤ s.address + s.size) × (s.pointer + (rva - s.address) + len ≤ length file.now)) }
{
    for k in 0..count {
        let section = read(file, headers + 40 * k as usize);
        if covers(section, file.len(), rva, len) {
            return Some(section);
        }
    }
    None
}

/// Where the range stands in the file, by the first section that holds it.
#[tactic(auto, unfolding(file_tables::specs::Pe::place_of, file_tables::specs::Pe::section_of, file_tables::specs::Pe::holds))]
pub fn place_of_range(file: &[u8], headers: usize, count: u16, rva: u32, len: u32) -> Option<usize>
    requires { headers + 40 * count ≤ length file.now }
    ensures place { result ≡ place_of (length file.now) (sections_from file.now headers count) rva len }
    ensures fits { IfSome result (λ at. at + len ≤ length file.now) }
{
    let section = section_holding(file, headers, count, rva, len)?;
    Some(section.pointer as usize + (rva - section.address) as usize)
}
