//! The parts of a file, one behind the other.

ghost use Rattle.std.specs.Prelude.{◌≡◌, ◌++◌, ◌<◌, ◌≤◌, ◌+◌, ◌-◌, ◌*◌, ◌^◌, IfOk, OnOk, ℕ, length, [], ◌∷◌, sum_by, slice_index};
ghost use Rattle.std.specs.List.{flat_map};
ghost use Rattle.cil_layout.specs.Asked.{row_weight, one_if};
ghost use Rattle.cil_layout.specs.Layout.{file_flags as flags_of, value_of, field_bytes, four, headers, cli_header, root, round_up, is_long, width, widths_by, all_spelled, stream_by, metadata_by, file_by};

use crate::heaps::Heaps;
use crate::tables::{Source, push_tables};
use crate::write::{pad, push_bytes, push_four, push_parts, push_zeros};
use cil_layout::fixed::{
    BLOBS_NAME, CLI_FLAGS, CLI_HEADER, CONTENT_RVA, DOS_HEADER, GUID_NAME, LIBRARY_FLAGS,
    MODULE_GUID, PROGRAM_FLAGS, ROOT, STRINGS_NAME, TABLES_HEADER, TABLES_NAME, TABLES_PLACE,
    TEXTS_NAME, VALID_TABLES,
};
use cil_layout::headers::{Field, HEADER_FIELDS, Value};
use cil_layout::places::Widths;
use cil_layout::rows::{ASSEMBLY_REF, METHOD_DEF, TABLES, TYPE_DEF, TYPE_REF, TYPE_SPEC};
use plain_types::fault::NoMemory;
use std::alloc::Global;

/// A multiple of 512 that is large enough.
pub fn file_aligned(size: u32) -> u32
    requires { size ≤ 5000000 }
    ensures { result ≡ round_up 512 size }
{
    size.div_ceil(512) * 512
}

/// A multiple of 0x2000 that is large enough.
fn section_aligned(size: u32) -> u32
    requires { size ≤ 5000000 }
    ensures { result ≡ round_up 8192 size }
{
    size.div_ceil(0x2000) * 0x2000
}

/// The flags of the file.
fn file_flags(entry: u32) -> u16
    ensures { result ≡ flags_of entry }
{
    if entry == 0 {
        LIBRARY_FLAGS
    } else {
        PROGRAM_FLAGS
    }
}

/// What a field of a header holds, where the one section has so many bytes.
fn value_for(size: u32, entry: u32, value: Value) -> u64
    requires { size ≤ 5000000 }
    ensures { result ≡ value_of size entry value }
{
    match value {
        Value::Is(number) => number,
        Value::FileFlags => u64::from(file_flags(entry)),
        Value::SectionSize => u64::from(size),
        Value::RawSize => u64::from(file_aligned(size)),
        Value::ImageSize => u64::from(0x2000 + section_aligned(size)),
    }
}

/// A field of a header.
fn push_field(out: &mut Vec<u8>, size: u32, entry: u32, field: Field) -> Result<(), NoMemory>
    requires { size ≤ 5000000 }
    ensures { OnOk result (out.new.items ≡ out.old.items ++ field_bytes size entry field) }
{
    let bytes = value_for(size, entry, field.value).to_le_bytes();
    let count = usize::from(field.width).min(8);
    push_bytes(out, &bytes[..count])
}

/// The fields of the headers.
fn push_fields(out: &mut Vec<u8>, size: u32, entry: u32) -> Result<(), NoMemory>
    requires { size ≤ 5000000 }
    ensures { OnOk result (out.new.items ≡ out.old.items ++ flat_map (field_bytes size entry) HEADER_FIELDS) }
{
    for field in &HEADER_FIELDS {
        push_field(out, size, entry, *field)?;
    }
    Ok(())
}

/// The first 512 bytes of a file whose one section has so many bytes (ECMA-335 II.25.2, II.25.3).
#[tactic(auto, unfolding(cil_layout::specs::Layout::headers))]
pub fn push_headers(out: &mut Vec<u8>, size: u32, entry: u32) -> Result<(), NoMemory>
    requires { size ≤ 5000000 }
    ensures { OnOk result (out.new.items ≡ out.old.items ++ headers size entry) }
{
    push_bytes(out, &DOS_HEADER)?;
    push_fields(out, size, entry)?;
    push_zeros(out, 96)
}

/// The CLI header of metadata that begins so far behind it (II.25.3.3).
#[tactic(auto, unfolding(cil_layout::specs::Layout::cli_header))]
pub fn push_cli_header(
    out: &mut Vec<u8>,
    before: u32,
    size: u32,
    entry: u32,
) -> Result<(), NoMemory>
    requires { before ≤ 5000000 }
    ensures { OnOk result (out.new.items ≡ out.old.items ++ cli_header before size entry) }
{
    push_parts(
        out,
        &[
            &CLI_HEADER,
            &(CONTENT_RVA + before).to_le_bytes(),
            &size.to_le_bytes(),
            &CLI_FLAGS,
            &entry.to_le_bytes(),
            &[0; 48],
        ],
    )
}

/// The metadata root, with the sizes of the streams (II.24.2.1, II.24.2.2).
#[tactic(auto, unfolding(cil_layout::specs::Layout::root))]
pub fn push_root(
    out: &mut Vec<u8>,
    tables: u32,
    strings: u32,
    texts: u32,
    blobs: u32,
) -> Result<(), NoMemory>
    requires { tables + strings + texts + blobs ≤ 5000000 }
    ensures { OnOk result (out.new.items ≡ out.old.items ++ root tables strings texts blobs) }
{
    let strings_at = TABLES_PLACE + tables;
    let texts_at = strings_at + strings;
    let guids_at = texts_at + texts;
    push_parts(
        out,
        &[
            &ROOT,
            &tables.to_le_bytes(),
            &TABLES_NAME,
            &strings_at.to_le_bytes(),
            &strings.to_le_bytes(),
            &STRINGS_NAME,
            &texts_at.to_le_bytes(),
            &texts.to_le_bytes(),
            &TEXTS_NAME,
            &guids_at.to_le_bytes(),
            &16u32.to_le_bytes(),
            &GUID_NAME,
            &(guids_at + 16).to_le_bytes(),
            &blobs.to_le_bytes(),
            &BLOBS_NAME,
        ],
    )
}

/// The width of an index.
fn width_if(wide: bool) -> u8
    ensures { result ≡ width wide }
{
    if wide { 4 } else { 2 }
}

/// The widths of indexes, by the rows of the tables and the bytes of the heaps (II.24.2.6).
pub fn widths_for(counts: &[u32; 64], strings: usize, blobs: usize) -> Widths
    ensures { result ≡ widths_by (λ t. slice_index counts.now t) strings blobs }
{
    let types = counts[TYPE_DEF as usize] >= 16_384
        || counts[TYPE_REF as usize] >= 16_384
        || counts[TYPE_SPEC as usize] >= 16_384;
    let parents = counts[TYPE_DEF as usize] >= 8192
        || counts[TYPE_REF as usize] >= 8192
        || counts[METHOD_DEF as usize] >= 8192
        || counts[TYPE_SPEC as usize] >= 8192;
    let scopes = counts[ASSEMBLY_REF as usize] >= 16_384 || counts[TYPE_REF as usize] >= 16_384;
    Widths {
        strings: width_if(strings >= 65_536),
        blobs: width_if(blobs >= 65_536),
        types: width_if(types),
        parents: width_if(parents),
        scopes: width_if(scopes),
    }
}

/// The byte with a bit for each heap whose indexes are wide.
fn heap_sizes(strings: usize, blobs: usize) -> u8
    ensures { result ≡ one_if (is_long strings) + 4 * one_if (is_long blobs) }
{
    let names = if strings >= 65_536 { 1 } else { 0 };
    let signatures = if blobs >= 65_536 { 4 } else { 0 };
    names + signatures
}

/// The row counts of the tables.
fn push_counts(out: &mut Vec<u8>, counts: &[u32; 64]) -> Result<(), NoMemory>
    ensures { OnOk result (out.new.items ≡ out.old.items ++ flat_map (λ t. four (slice_index counts.now t)) TABLES) }
{
    for table in &TABLES {
        push_four(out, counts[*table as usize])?;
    }
    Ok(())
}

/// The stream `#~` (II.24.2.6), with the bytes of `#Strings` and `#Blob`.
#[tactic(auto, unfolding(cil_layout::specs::Layout::stream_by))]
pub fn tables_stream(
    alloc: Global,
    counts: &[u32; 64],
    strings: usize,
    blobs: usize,
    source: Source<'_>,
) -> Result<Vec<u8>, NoMemory>
    requires { 96 + length source.name.now + sum_by row_weight source.rows.now ≤ 4194304 }
    ensures { IfOk result (λ stream. stream.items ≡ stream_by (λ t. slice_index counts.now t) strings blobs source.entry.name.now source.entry.version source.entry.rows.now) }
{
    let mut out = Vec::new(alloc);
    push_parts(
        &mut out,
        &[&TABLES_HEADER, &[heap_sizes(strings, blobs)], &VALID_TABLES],
    )?;
    push_counts(&mut out, counts)?;
    push_tables(&mut out, widths_for(counts, strings, blobs), source)?;
    pad(&mut out)?;
    Ok(out)
}

/// The metadata: root, tables and heaps.
#[tactic(auto, unfolding(cil_layout::specs::Layout::metadata_by))]
pub fn metadata_of(alloc: Global, tables: &[u8], heaps: &Heaps) -> Result<Vec<u8>, NoMemory>
    requires { length tables.now + length heaps.now.strings.items + length heaps.now.texts.items + length heaps.now.blobs.items ≤ 5000000 }
    ensures { IfOk result (λ bytes. bytes.items ≡ metadata_by tables.now heaps.now.strings.items heaps.now.texts.items heaps.now.blobs.items) }
{
    let (strings, texts, blobs) = (&heaps.strings, &heaps.texts, &heaps.blobs);
    let mut out = Vec::new(alloc);
    push_root(
        &mut out,
        tables.len() as u32,
        strings.len() as u32,
        texts.len() as u32,
        blobs.len() as u32,
    )?;
    push_bytes(&mut out, tables)?;
    push_bytes(&mut out, strings.as_slice())?;
    push_bytes(&mut out, texts.as_slice())?;
    push_bytes(&mut out, &MODULE_GUID)?;
    push_bytes(&mut out, blobs.as_slice())?;
    Ok(out)
}

/// The file: headers, CLI header, bodies and data, and metadata, with zeros up to a multiple of 512.
#[tactic(auto, unfolding(cil_layout::specs::Layout::file_by))]
pub fn file_of(
    alloc: Global,
    metadata: &[u8],
    content: &[u8],
    entry: u32,
) -> Result<Vec<u8>, NoMemory>
    requires { 72 + length content.now + length metadata.now ≤ 5000000 }
    ensures { IfOk result (λ file. file.items ≡ file_by metadata.now content.now entry) }
{
    let size = 72 + content.len() as u32 + metadata.len() as u32;
    let mut out = Vec::new(alloc);
    push_headers(&mut out, size, entry)?;
    push_cli_header(&mut out, content.len() as u32, metadata.len() as u32, entry)?;
    push_bytes(&mut out, content)?;
    push_bytes(&mut out, metadata)?;
    push_zeros(&mut out, (file_aligned(size) - size) as usize)?;
    Ok(out)
}
