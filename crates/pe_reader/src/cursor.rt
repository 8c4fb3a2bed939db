//! Many bytes of one file, one after the other.

ghost use Rattle.std.specs.Prelude.{◌≡◌, ◌+◌, ◌*◌, ◌^◌, ◌<◌, ◌≤◌, length, IfSome};
ghost use Rattle.std.specs.Option.{option_copied};
ghost use Rattle.pe_reader.specs.Seen.{sections_from};
ghost use Rattle.pe_reader.specs.Spans.{IsSpan};
ghost use Rattle.file_tables.specs.Pe.{pe_part, section_headers, section_count, tail};

use crate::section::rest_of;
use crate::span::{Span, span_around};
use std::marker::Model;

/// A file's PE part with what was found when it was asked last, so that it needn't go over the sections again for bytes
/// of one section. Contracts see the PE part.
#[derive(Drop)]
pub struct SectionCursor<'a> {
    file: &'a [u8],
    sections: usize,
    count: u16,
    span: Span,
}

impl<'a> Model for SectionCursor<'a> {
    ghost use Rattle.file_tables.specs.Pe.{PePart, pe_part};

    ghost Value = { PePart };

    ghost use Rattle.pe_reader.specs.InsideCursor.{IsCursor};

    ghost view = { λ p. pe_part p.file.now };

    ghost invariant = { IsCursor };
}

/// The span around an RVA: the one that is remembered, or one that is looked for.
fn near(remembered: Span, file: &[u8], headers: usize, count: u16, rva: u32) -> Span
    requires fit { headers + 40 * count ≤ length file.now }
    requires remembered { IsSpan (length file.now) (sections_from file.now headers count) remembered }
    ensures around { (result.from ≤ rva) × (rva < result.end) }
    ensures span { IsSpan (length file.now) (sections_from file.now headers count) result }
{
    let asked = u64::from(rva);
    if remembered.from <= asked && asked < remembered.end {
        return remembered;
    }
    span_around(file, headers, count, rva)
}

impl<'a> SectionCursor<'a> {
    /// A cursor that remembers nothing yet.
    pub(crate) fn new(file: &'a [u8], sections: usize, count: u16) -> Self
        requires place { sections ≡ section_headers file.now }
        requires count { count ≡ section_count file.now }
        requires fit { sections + 40 * count ≤ length file.now }
        ensures { result ≡ pe_part file.now }
    {
        let span = Span {
            from: 0,
            end: 0,
            section: None,
        };
        SectionCursor {
            file,
            sections,
            count,
            span,
        }
    }

    /// From the byte at an RVA to the last byte of its section that is in the file; `None` exactly where no section
    /// holds that byte. It goes over the sections only where the byte isn't among those that it remembers.
    #[tactic(auto, unfolding(file_tables::specs::Pe::pe_part, file_tables::specs::Pe::sections_of))]
    pub fn tail(&mut self, rva: u32) -> Option<&'a [u8]>
        ensures bytes { option_copied result ≡ tail self.old rva }
        ensures same { self.new ≡ self.old }
        ensures short { IfSome result (λ bytes. length bytes.now < 2 ^ 32) }
    {
        let span = near(self.span, self.file, self.sections, self.count, rva);
        self.span = span;
        let section = span.section?;
        Some(rest_of(self.file, section, rva))
    }
}
