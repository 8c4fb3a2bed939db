//! The tables and heaps of a file's metadata.

ghost use Rattle.std.specs.Prelude.{◌≡◌, ℕ, ◌+◌, ◌*◌, ◌<◌, ◌≤◌, ◌^◌, length, slice_index, true};
ghost use Rattle.std.specs.Option.{option_copied};
ghost use Rattle.file_tables.specs.Heaps as heaps;
ghost use Rattle.file_tables.specs.Metadata as metadata;
ghost use Rattle.file_tables.specs.Streams.{heap_named, is_root};
ghost use Rattle.cil_tables.specs.Place.{HasRoot};
ghost use Rattle.cil_tables.specs.Layout.{IsLayout};

use crate::check::check_rows;
use crate::headers::check_headers;
use crate::heap;
use crate::layout::{Layout, read_layout};
use crate::root::{Headers, read_root, stream_named};
use crate::row::{Row, read_row};
use crate::shape::count;
use crate::view::range;
use plain_types::fault::Fault;
use std::marker::Model;

/// The tables and heaps of metadata that keep rules 8 to 13, read in place. Contracts see them as lists of rows and
/// lists of bytes.
#[derive(Debug, Drop)]
pub struct Tables<'a> {
    region: &'a [u8],
    layout: Layout,
    strings: &'a [u8],
    blobs: &'a [u8],
    user_strings: &'a [u8],
}

impl<'a> Model for Tables<'a> {
    ghost use Rattle.file_tables.specs.Metadata.{MetadataPart, metadata_part};

    ghost Value = { MetadataPart };

    ghost use Rattle.cil_tables.specs.Inside.{IsTables};

    ghost view = { λ t. metadata_part t.region.now };

    ghost invariant = { IsTables };
}

/// The bytes of the heap of a name; none where it is missing.
#[tactic(auto, using(crate::proofs::MetadataLaws::heap_is, crate::proofs::MetadataLaws::no_heap))]
fn heap_of<'a>(region: &'a [u8], headers: &Headers, name: &[u8]) -> &'a [u8]
    requires small { length region.now < 2 ^ 32 }
    requires root { HasRoot region.now headers.now }
    ensures heap { result.now ≡ heap_named region.now name.now }
    ensures within { length result.now ≤ length region.now }
{
    match stream_named(region, headers, name) {
        None => &region[..0],
        Some(stream) => range(region, stream.offset as usize, stream.size as usize),
    }
}

/// The bytes of the stream of a name, as `#~`; none where it is missing. Of metadata that break rule 8 nothing is told.
pub fn stream<'a>(region: &'a [u8], name: &[u8]) -> &'a [u8]
    requires { length region.now < 2 ^ 32 }
    ensures { is_root region.now ≡ true → result.now ≡ heap_named region.now name.now }
{
    match read_root(region) {
        Ok(headers) => heap_of(region, &headers, name),
        Err(_) => &region[..0],
    }
}

/// The tables whose rows stand so.
#[tactic(auto, unfolding(file_tables::specs::Metadata::metadata_part))]
fn assemble<'a>(region: &'a [u8], headers: &Headers, layout: &Layout) -> Tables<'a>
    requires small { length region.now < 2 ^ 32 }
    requires root { HasRoot region.now headers.now }
    requires layout { IsLayout region.now layout.now }
    ensures { result ≡ metadata.metadata_part region.now }
{
    let layout = *layout;
    let strings = heap_of(region, headers, b"#Strings");
    let blobs = heap_of(region, headers, b"#Blob");
    let user_strings = heap_of(region, headers, b"#US");
    Tables {
        region,
        layout,
        strings,
        blobs,
        user_strings,
    }
}

impl<'a> Tables<'a> {
    /// The first broken rule of 8 to 13, or the tables and heaps. Its offset counts from the metadata root; rule 12
    /// names table and row instead.
    ///
    /// Rule 8 is the root (ECMA-335 II.24.2.1), rule 9 the stream headers (II.24.2.2), rule 10 the header of `#~`, rule
    /// 11 that its rows are there (II.24.2.6), rule 12 that what the rows name is there, and rule 13 that there is one
    /// Assembly row.
    #[tactic(auto, using(crate::proofs::OpenLaws::root_broken, crate::proofs::OpenLaws::streams_broken, crate::proofs::OpenLaws::layout_broken, crate::proofs::OpenLaws::rows_broken, crate::proofs::OpenLaws::opened))]
    pub fn open(meta: &'a [u8]) -> Result<Tables<'a>, Fault>
        requires { length meta.now < 2 ^ 32 }
        ensures { result ≡ metadata.metadata_of meta.now }
    {
        let headers = read_root(meta)?;
        check_headers(meta, &headers)?;
        let layout = read_layout(meta, &headers)?;
        let tables = assemble(meta, &headers, &layout);
        check_rows(&tables)?;
        Ok(tables)
    }

    /// How many rows a table has; 0 where the number is no table's.
    #[tactic(auto, using(crate::proofs::MetadataLaws::count_is))]
    pub fn rows(&self, table: u8) -> u32
        ensures { result ≡ metadata.row_count self.now table }
    {
        count(&self.layout.shape, table)
    }

    /// A row of a table by its number, counted from 1.
    pub fn row(&self, table: u8, n: u32) -> Row
        requires first { 1 ≤ n }
        requires last { n ≤ metadata.row_count self.now table }
        ensures { (k : ℕ) → slice_index result.columns k ≡ metadata.column_of self.now table n k }
    {
        let layout = &self.layout;
        let rows = &layout.tables[table as usize];
        let start = rows.start + (n - 1) as usize * rows.widths.row;
        read_row(self.region, &rows.widths, start)
    }

    /// The text at an offset of `#Strings` (ECMA-335 II.24.2.3); `None` exactly where no entry begins there.
    #[tactic(auto, unfolding(file_tables::specs::Metadata::metadata_part))]
    pub fn string(&self, i: u32) -> Option<&'a str>
        ensures { option_copied result ≡ heaps.string_at self.now.strings i }
    {
        heap::string(self.strings, i as usize)
    }

    /// The bytes of `#Strings`.
    #[tactic(auto, unfolding(file_tables::specs::Metadata::metadata_part))]
    pub(crate) fn strings(&self) -> &'a [u8]
        ensures heap { result.now ≡ self.now.strings }
        ensures small { length result.now < 2 ^ 32 }
    {
        self.strings
    }

    /// The bytes at an offset of `#Blob` (ECMA-335 II.24.2.4); `None` exactly where no entry begins there.
    #[tactic(auto, unfolding(file_tables::specs::Metadata::metadata_part))]
    pub fn blob(&self, i: u32) -> Option<&'a [u8]>
        ensures { option_copied result ≡ heaps.blob_at self.now.blobs i }
    {
        heap::blob(self.blobs, i as usize)
    }

    /// The UTF-16 bytes at an offset of `#US`, without the final byte (ECMA-335 II.24.2.4); `None` exactly where no
    /// entry begins there.
    #[tactic(auto, unfolding(file_tables::specs::Metadata::metadata_part))]
    pub fn user_string(&self, i: u32) -> Option<&'a [u8]>
        ensures { option_copied result ≡ heaps.user_string_at self.now.user_strings i }
    {
        heap::user_string(self.user_strings, i as usize)
    }
}
