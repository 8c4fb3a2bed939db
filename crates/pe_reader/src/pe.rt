//! The PE part of a file.

ghost use Rattle.std.specs.Prelude.{◌≡◌, ◌<◌, ◌^◌, length};
ghost use Rattle.std.specs.Option.{option_copied};
ghost use Rattle.file_tables.specs.Pe.{pe_of, at_rva, tail};

use crate::cli::cli_header;
use crate::cursor::SectionCursor;
use crate::header::{broken, read_headers};
use crate::section::{place_of_range, rest_of, section_holding};
use file_tables::bytes::u32_at;
use plain_types::fault::Fault;
use std::marker::Model;

/// The PE part of a file that keeps rules 1 to 7. Contracts see it as the file's bytes, its sections, the entry token
/// and the bytes of the metadata.
#[derive(Debug, Drop)]
pub struct Pe<'a> {
    file: &'a [u8],
    sections: usize,
    count: u16,
    entry: u32,
    region: &'a [u8],
}

impl<'a> Model for Pe<'a> {
    ghost use Rattle.file_tables.specs.Pe.{PePart, pe_part};

    ghost Value = { PePart };

    ghost use Rattle.pe_reader.specs.Inside.{IsPart};

    ghost view = { λ p. pe_part p.file.now };

    ghost invariant = { IsPart };
}

/// The first broken rule of 1 to 7, with its offset in the file, or the file's PE part.
///
/// Rule 1 is the size of the file and `MZ`, rule 2 the PE signature and COFF header, rule 3 the optional header, rule 4
/// the section headers, rule 5 the CLI header's place, rule 6 its flags and rule 7 the metadata's place
/// (ECMA-335 II.25.2, II.25.3).
#[tactic(auto, using(crate::proofs::PeLaws::refused, crate::proofs::PeLaws::accepted, crate::proofs::PeLaws::without_region), unfolding(file_tables::specs::Pe::sections_of, file_tables::specs::Pe::file_place, file_tables::specs::Pe::region_place, file_tables::specs::Pe::region_size, file_tables::specs::Pe::has_region, file_tables::specs::Pe::pe_part))]
pub fn metadata(file: &[u8]) -> Result<Pe<'_>, Fault>
    ensures { result ≡ pe_of file.now }
{
    let headers = read_headers(file)?;
    let cli = cli_header(file, &headers)?;
    let rva = u32_at(file, cli + 8);
    let size = u32_at(file, cli + 12);
    let entry = u32_at(file, cli + 20);
    match place_of_range(file, headers.sections, headers.count, rva, size) {
        None => Err(broken(7, cli + 8)),
        Some(at) => Ok(Pe {
            file,
            sections: headers.sections,
            count: headers.count,
            entry,
            region: &file[at..at + size as usize],
        }),
    }
}

impl<'a> Pe<'a> {
    /// The bytes of the metadata.
    #[tactic(auto, unfolding(file_tables::specs::Pe::pe_part))]
    pub fn region(&self) -> &'a [u8]
        ensures bytes { result.now ≡ self.now.region }
        ensures small { length result.now < 2 ^ 32 }
    {
        self.region
    }

    /// The entry token of the CLI header.
    #[tactic(auto, unfolding(file_tables::specs::Pe::pe_part))]
    pub fn entry(&self) -> u32
        ensures { result ≡ self.now.entry }
    {
        self.entry
    }

    /// The bytes of a range of RVAs; `None` exactly where no section holds the range.
    #[tactic(auto, unfolding(file_tables::specs::Pe::pe_part, file_tables::specs::Pe::sections_of))]
    pub fn at_rva(&self, rva: u32, len: u32) -> Option<&'a [u8]>
        ensures { option_copied result ≡ at_rva self.now rva len }
    {
        let at = place_of_range(self.file, self.sections, self.count, rva, len)?;
        Some(&self.file[at..at + len as usize])
    }

    /// From the byte at an RVA to the last byte of its section that is in the file; `None` exactly where no section
    /// holds that byte. It goes over the sections up to that one; for many bytes there is a [`SectionCursor`].
    #[tactic(auto, using(crate::proofs::PeLaws::tail_found), unfolding(file_tables::specs::Pe::pe_part, file_tables::specs::Pe::sections_of))]
    pub fn tail(&self, rva: u32) -> Option<&'a [u8]>
        ensures { option_copied result ≡ tail self.now rva }
    {
        let section = section_holding(self.file, self.sections, self.count, rva, 1)?;
        Some(rest_of(self.file, section, rva))
    }

    /// A cursor that remembers the section of the byte that was asked for last.
    pub fn cursor(&self) -> SectionCursor<'a>
        ensures { result ≡ self.now }
    {
        SectionCursor::new(self.file, self.sections, self.count)
    }
}
