//! Where the rows of each table begin (ECMA-335 II.24.2.6).

ghost use Rattle.std.specs.Prelude.{◌≡◌, ◌+◌, ◌*◌, ◌-◌, ◌<◌, ◌≤◌, ◌^◌, ℕ, ◌&&◌, [], Some, None, IfErr, IfOk, length, cond, map, nat_le, slice_index};
ghost use Rattle.file_tables.specs.Bytes.{u32_at};
ghost use Rattle.std.specs.List.{range_with_len, list_all};
ghost use Rattle.file_tables.specs.Metadata as metadata;
ghost use Rattle.file_tables.specs.Rules.{first_broken};
ghost use Rattle.file_tables.specs.Streams.{rules_of_streams, streams_of};
ghost use Rattle.cil_tables.specs.Place.{HasRoot};
ghost use Rattle.cil_tables.specs.Layout.{count_behind, layout_rules, TablesAt, ArePlaced, IsLayout};
ghost use Rattle.cil_tables.specs.Shape.{seen};
ghost use Rattle.file_tables.specs.Tables as tables;

use crate::fault::broken;
use crate::root::{Headers, Stream, stream_named};
use crate::shape::{Shape, Widths, column_widths, count};
use crate::view::{byte, eight, four};
use file_tables::bytes::has_bit;
use file_tables::numbers::TABLES;
use file_tables::schema::columns;
use plain_types::fault::Fault;

/// The row counts, and where the rows begin.
#[derive(Clone, Copy)]
struct Counts {
    counts: [u32; TABLES],
    first: usize,
}

/// The row count at an offset, if the table is there.
fn count_if(is_there: bool, region: &[u8], at: usize) -> u32
    requires { at < 2 ^ 61 }
    ensures { result ≡ cond is_there (u32_at region.now at) 0 }
{
    if is_there { four(region, at) } else { 0 }
}

/// The size of a row count, if the table is there.
fn size_if(is_there: bool) -> usize
    ensures size { result ≡ 4 * cond is_there 1 0 }
    ensures small { result ≤ 4 }
{
    if is_there { 4 } else { 0 }
}

/// The row counts of the tables that are there, behind the header at an offset.
#[tactic(auto, using(crate::proofs::Ranges::present_more, crate::proofs::Ranges::present_none, std::proofs::lemmas::List::FromFn::fill_by_all))]
fn read_counts(region: &[u8], begin: usize, valid: u64) -> Counts
    requires { begin < 2 ^ 32 }
    ensures counts { result.counts ≡ map (count_behind region.now begin valid) (range_with_len 0 64) }
    ensures first { result.first ≡ begin + 24 + 4 * metadata.present_before valid 64 }
    ensures small { result.first ≤ begin + 280 }
{
    let mut counts = [0; TABLES];
    let mut at = begin + 24;
    for t in 0..64 {
        let is_there = has_bit(valid, t);
        counts[t as usize] = count_if(is_there, region, at);
        at += size_if(is_there);
    }
    Counts { counts, first: at }
}

/// No table is there that has no columns.
#[tactic(auto, using(crate::proofs::Ranges::all_below, crate::proofs::Ranges::fails_below), unfolding(file_tables::specs::Metadata::is_known_table))]
fn knows_tables(valid: u64) -> bool
    ensures { result ≡ list_all (metadata.is_known_table valid) (range_with_len 0 64) }
{
    for t in 0..64u8 {
        if has_bit(valid, t as u32) && columns(t).is_empty() {
            return false;
        }
    }
    true
}

/// Where the rows of a table begin, and how wide their columns are.
#[derive(Clone, Copy, Debug)]
pub struct Rows {
    pub start: usize,
    pub widths: Widths,
}

/// Where the rows of each table stand, and where the last end.
#[derive(Clone, Copy)]
struct Places {
    tables: [Rows; TABLES],
    end: usize,
}

/// The places of the rows, where those of table 0 begin at an offset.
#[tactic(auto, using(crate::proofs::Ranges::sizes_more, crate::proofs::Ranges::sizes_none))]
fn place_rows(shape: &Shape, first: usize) -> Places
    requires { first < 2 ^ 33 }
    ensures tables { ArePlaced (seen shape.now) first result.tables 64 }
    ensures end { result.end ≡ first + tables.sizes_before (seen shape.now) 64 }
{
    let mut at = first;
    let mut tables = [Rows {
        start: first,
        widths: column_widths(shape, 0),
    }; TABLES];
    for t in 0..64u8 {
        let widths = column_widths(shape, t);
        tables[t as usize] = Rows { start: at, widths };
        at += count(shape, t) as usize * widths.row;
    }
    Places { tables, end: at }
}

/// Rule 10 on the header's parts.
fn keeps_header(begin: usize, end: usize, heap_sizes: u8, valid: u64, first: usize) -> bool
    requires { begin < 2 ^ 33 }
    ensures { result ≡ (nat_le (begin + 24) end && nat_le heap_sizes 7 && list_all (metadata.is_known_table valid) (range_with_len 0 64) && nat_le first end) }
{
    let known = knows_tables(valid);
    begin + 24 <= end && heap_sizes <= 7 && known && first <= end
}

/// How many rows the tables have, and where those stand.
#[derive(Clone, Copy, Debug)]
pub struct Layout {
    pub shape: Shape,
    pub tables: [Rows; TABLES],
}

/// The first broken rule on the tables' stream, or where the rows stand.
pub fn read_layout(region: &[u8], headers: &Headers) -> Result<Layout, Fault>
    requires small { length region.now < 2 ^ 32 }
    requires root { HasRoot region.now headers.now }
    requires streams { first_broken (rules_of_streams region.now [] (streams_of region.now)) ≡ None }
    ensures broken { IfErr result (λ fault. first_broken (layout_rules region.now) ≡ Some fault) }
    ensures kept { IfOk result (λ _. first_broken (layout_rules region.now) ≡ None) }
    ensures layout { IfOk result (IsLayout region.now) }
{
    let stream = stream_named(region, headers, b"#~");
    match stream {
        None => Err(broken(9, 0)),
        Some(stream) => layout_of(region, stream),
    }
}

/// The first broken rule of 10 and 11 on the tables' stream, or where the rows stand.
fn layout_of(region: &[u8], stream: Stream) -> Result<Layout, Fault>
    requires small { length region.now < 2 ^ 32 }
    requires tables { TablesAt region.now stream }
    ensures broken { IfErr result (λ fault. first_broken (layout_rules region.now) ≡ Some fault) }
    ensures kept { IfOk result (λ _. first_broken (layout_rules region.now) ≡ None) }
    ensures layout { IfOk result (IsLayout region.now) }
{
    let begin = stream.offset as usize;
    let end = begin + stream.size as usize;
    let heap_sizes = byte(region, begin + 6);
    let valid = eight(region, begin + 8);
    let Counts { counts, first } = read_counts(region, begin, valid);
    if !keeps_header(begin, end, heap_sizes, valid, first) {
        return Err(broken(10, begin));
    }
    let shape = Shape { heap_sizes, counts };
    let places = place_rows(&shape, first);
    if places.end > end {
        return Err(broken(11, end));
    }
    let tables = places.tables;
    Ok(Layout { shape, tables })
}
