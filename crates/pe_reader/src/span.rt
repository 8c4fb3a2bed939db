//! Which section holds the bytes around an RVA.

ghost use Rattle.std.specs.Prelude.{◌≡◌, ℕ, ◌+◌, ◌-◌, ◌*◌, ◌<◌, ◌≤◌, length, min};
ghost use Rattle.std.specs.Option.{option_map};
ghost use Rattle.file_tables.specs.Pe.{section_of};
ghost use Rattle.pe_reader.specs.Seen.{seen, sections_from};
ghost use Rattle.pe_reader.specs.Spans.{IsSpan};

use crate::section::{Section, read};

/// RVAs from one to the one behind the last, all of which the same section is the first to hold, or none does.
#[derive(Clone, Copy)]
pub struct Span {
    pub from: u64,
    pub end: u64,
    pub section: Option<Section>,
}

/// Behind the last RVA that the section holds; no RVA from its address on where it holds none.
fn end_of(section: Section, file_length: usize) -> u64
    ensures { result ≡ section.address + min section.size (file_length - section.pointer) }
{
    let in_file = (file_length as u64).saturating_sub(u64::from(section.pointer));
    u64::from(section.address) + u64::from(section.size).min(in_file)
}

/// The span around an RVA: the first section in header order that holds it, as far as no earlier one does.
pub fn span_around(file: &[u8], headers: usize, count: u16, rva: u32) -> Span
    requires { headers + 40 * count ≤ length file.now }
    ensures around { (result.from ≤ rva) × (rva < result.end) }
    ensures span { IsSpan (length file.now) (sections_from file.now headers count) result }
{
    let mut from = 0;
    let mut end = 0x1_0000_0000;
    let asked = u64::from(rva);
    for k in 0..count {
        let section = read(file, headers + 40 * usize::from(k));
        let first = u64::from(section.address);
        let behind = end_of(section, file.len());
        if asked < first {
            end = first.min(end);
        } else if behind <= asked {
            from = behind.max(from);
        } else {
            return Span {
                from: first.max(from),
                end: behind.min(end),
                section: Some(section),
            };
        }
    }
    Span {
        from,
        end,
        section: None,
    }
}
