//! The bytes of an image.

ghost use Rattle.std.specs.Prelude.{◌≡◌, ℕ, ◌+◌, ◌/◌, ◌%◌, ◌≤◌, [], ◌∷◌, ◌++◌, IfOk, IfErr, OnOk, None, length, drop, replicate, slice_index};
ghost use Rattle.std.specs.List.{flat_map};
ghost use Rattle.image_bytes.specs.Layout.{onto, word_onto, words_onto, table_onto, all_onto, byte_onto, marker, counts_of, lengths_of};
ghost use Rattle.image_pools.specs.Pools.{pool_onto};
ghost use Rattle.msspot_write.specs.Parts.{column_words, row_words, table_words, tables_words, in_row, in_rows, in_tables, data_bytes, next_code, tables, pools_of, image_of_parts, over_of_parts};
ghost use Rattle.msspot_write.specs.Written.{codes_of, Refuses};

use crate::counts::{Counts, WriteRefusal, counted, passed};
use crate::entries::PoolEntry;
use crate::parts::{Column, PartRow, Parts, TABLES};
use crate::pooling::Pools;
use byteorder::{ByteOrder, LittleEndian};
use plain_types::fault::NoMemory;
use std::alloc::Global;

/// What an image begins with.
const MARKER: [u8; 8] = *b"MSSpot1\0";

/// The column of a method's row that has the length of its code.
const CODE_LENGTH: usize = 4;

/// Where the code of a row lies.
#[derive(Clone, Copy)]
struct Span {
    start: u32,
    count: u32,
}

/// A number of two bytes.
fn push_word(out: &mut Vec<u8>, word: u16) -> Result<(), NoMemory>
    ensures { OnOk result (out.new.items ≡ out.old.items ++ word_onto word []) }
{
    let mut bytes = [0; 2];
    LittleEndian::write_u16(&mut bytes, word);
    out.extend_from_slice(&bytes)?;
    Ok(())
}

/// A number that fits two bytes.
fn push_number(out: &mut Vec<u8>, number: u32) -> Result<(), NoMemory>
    requires { number ≤ 65535 }
    ensures { OnOk result (out.new.items ≡ out.old.items ++ word_onto number []) }
{
    push_word(out, number as u16)
}

/// Bytes as they are.
fn push_bytes(out: &mut Vec<u8>, bytes: &[u8]) -> Result<(), NoMemory>
    ensures { OnOk result (out.new.items ≡ out.old.items ++ bytes.now) }
{
    out.extend_from_slice(bytes)?;
    Ok(())
}

/// How many bytes of data a column has.
fn data_len(column: &Column) -> usize
    ensures { result ≡ length (data_bytes column.now) }
{
    match column {
        Column::Data(bytes) => bytes.as_slice().len(),
        _ => 0,
    }
}

/// How many bytes of code a row has.
fn code_len(codes: &[Vec<u8>], row: usize) -> usize
    ensures { result ≡ length (next_code (drop row (codes_of codes.now))) }
{
    match codes.get(row) {
        Some(code) => code.len(),
        None => 0,
    }
}

/// A column, where the next data starts at a place.
fn push_column(
    out: &mut Vec<u8>,
    pools: &Pools,
    code: Span,
    number: usize,
    at: u32,
    column: &Column,
) -> Result<(), NoMemory>
    requires strings { length (pool_onto pools.now.strings []) ≤ 65535 }
    requires signatures { length (pool_onto pools.now.signatures []) ≤ 65535 }
    requires code { code.start + code.count ≤ 65535 }
    requires room { at + length (data_bytes column.now) ≤ 65535 }
    ensures { OnOk result (out.new.items ≡ out.old.items ++ words_onto (column_words pools.now code.start code.count number at column.now) []) }
{
    match column {
        Column::Number(word) => push_word(out, *word),
        Column::Name(text) => push_number(out, pools.name(text.as_slice())),
        Column::Signature(bytes) => push_number(out, pools.signature(bytes.as_slice())),
        Column::Data(bytes) => {
            push_number(out, at)?;
            push_number(out, bytes.as_slice().len() as u32)
        }
        Column::Code => {
            push_number(
                out,
                if number == CODE_LENGTH {
                    code.count
                } else {
                    code.start
                },
            )
        }
    }
}

/// A row. Where the data behind its own starts is the answer.
fn push_row(
    out: &mut Vec<u8>,
    pools: &Pools,
    code: Span,
    at: u32,
    row: &PartRow,
) -> Result<u32, NoMemory>
    requires strings { length (pool_onto pools.now.strings []) ≤ 65535 }
    requires signatures { length (pool_onto pools.now.signatures []) ≤ 65535 }
    requires code { code.start + code.count ≤ 65535 }
    requires room { at + length (in_row data_bytes row.now) ≤ 65535 }
    ensures next { IfOk result (λ next. next ≡ at + length (in_row data_bytes row.now)) }
    ensures out { OnOk result (out.new.items ≡ out.old.items ++ words_onto (row_words pools.now code.start code.count 0 at row.now.columns) []) }
{
    let mut next = at;
    for (number, column) in row.columns.as_slice().iter().enumerate() {
        push_column(out, pools, code, number, next, column)?;
        next += data_len(column) as u32;
    }
    Ok(next)
}

/// The rows of a table. Where the data behind their own starts is the answer.
fn push_rows(
    out: &mut Vec<u8>,
    pools: &Pools,
    codes: &[Vec<u8>],
    at: u32,
    rows: &[PartRow],
) -> Result<u32, NoMemory>
    requires strings { length (pool_onto pools.now.strings []) ≤ 65535 }
    requires signatures { length (pool_onto pools.now.signatures []) ≤ 65535 }
    requires codes { length (flat_map (λ c. c) (codes_of codes.now)) ≤ 65535 }
    requires room { at + length (in_rows data_bytes rows.now) ≤ 65535 }
    ensures next { IfOk result (λ next. next ≡ at + length (in_rows data_bytes rows.now)) }
    ensures out { OnOk result (out.new.items ≡ out.old.items ++ table_onto (table_words pools.now (codes_of codes.now) 0 at rows.now) []) }
{
    let mut start = 0;
    let mut next = at;
    for (index, row) in rows.iter().enumerate() {
        let count = code_len(codes, index) as u32;
        next = push_row(out, pools, Span { start, count }, next, row)?;
        start += count;
    }
    Ok(next)
}

/// All tables.
fn push_tables(
    out: &mut Vec<u8>,
    parts: &Parts,
    pools: &Pools,
    codes: &[Vec<u8>],
) -> Result<(), NoMemory>
    requires strings { length (pool_onto pools.now.strings []) ≤ 65535 }
    requires signatures { length (pool_onto pools.now.signatures []) ≤ 65535 }
    requires codes { length (flat_map (λ c. c) (codes_of codes.now)) ≤ 65535 }
    requires room { length (in_tables data_bytes parts.now tables) ≤ 65535 }
    ensures { OnOk result (out.new.items ≡ out.old.items ++ all_onto table_onto (tables_words pools.now parts.now (codes_of codes.now) 0 tables) []) }
{
    let mut at = 0;
    for table in &TABLES {
        at = push_rows(out, pools, codes, at, parts.rows(*table))?;
    }
    Ok(())
}

/// Entries one behind the other, each with its length before it.
fn push_entries(out: &mut Vec<u8>, entries: &[PoolEntry]) -> Result<(), NoMemory>
    requires { length (pool_onto entries.now []) ≤ 65535 }
    ensures { OnOk result (out.new.items ≡ out.old.items ++ pool_onto entries.now []) }
{
    for entry in entries {
        let bytes = entry.bytes();
        push_number(out, bytes.len() as u32)?;
        push_bytes(out, bytes)?;
    }
    Ok(())
}

/// Codes one behind the other.
fn push_codes(out: &mut Vec<u8>, codes: &[Vec<u8>]) -> Result<(), NoMemory>
    ensures { OnOk result (out.new.items ≡ out.old.items ++ flat_map (λ c. c) (codes_of codes.now)) }
{
    for code in codes {
        push_bytes(out, code.as_slice())?;
    }
    Ok(())
}

/// Numbers of two bytes.
fn push_words(out: &mut Vec<u8>, words: &[u16]) -> Result<(), NoMemory>
    ensures { OnOk result (out.new.items ≡ out.old.items ++ words_onto words.now []) }
{
    for word in words {
        push_word(out, *word)?;
    }
    Ok(())
}

/// Counts that fit two bytes.
fn push_counts(out: &mut Vec<u8>, counts: &[u64]) -> Result<(), NoMemory>
    requires { (k : ℕ) → slice_index counts.now k ≤ 65535 }
    ensures { OnOk result (out.new.items ≡ out.old.items ++ words_onto counts.now []) }
{
    for count in counts {
        push_word(out, *count as u16)?;
    }
    Ok(())
}

/// So many zeros.
#[tactic(auto, using(crate::proofs::OntoLaws::zeros_more))]
fn push_zeros(out: &mut Vec<u8>, count: u32) -> Result<(), NoMemory>
    ensures { OnOk result (out.new.items ≡ out.old.items ++ replicate count 0) }
{
    for _ in 0..count {
        out.push(0)?;
    }
    Ok(())
}

/// The header of an image of so many bytes.
fn push_header(
    out: &mut Vec<u8>,
    parts: &Parts,
    name: u32,
    counts: &Counts,
    size: u32,
) -> Result<(), NoMemory>
    requires name { name ≤ 65535 }
    requires rows { (k : ℕ) → slice_index counts.now.rows k ≤ 65535 }
    requires bytes { (k : ℕ) → slice_index counts.now.bytes k ≤ 65535 }
    ensures { OnOk result (out.new.items ≡ out.old.items ++ all_onto byte_onto marker (word_onto (size % 65536) (word_onto (size / 65536) (words_onto parts.now.version (word_onto name (word_onto parts.now.entry (words_onto counts.now.rows (words_onto counts.now.bytes (word_onto 0 []))))))))) }
{
    push_bytes(out, &MARKER)?;
    push_number(out, size % 65536)?;
    push_number(out, size / 65536)?;
    push_words(out, &parts.version)?;
    push_number(out, name)?;
    push_word(out, parts.entry)?;
    push_counts(out, &counts.rows)?;
    push_counts(out, &counts.bytes)?;
    push_word(out, 0)
}

/// The four pools.
fn push_pools(out: &mut Vec<u8>, pools: &Pools, codes: &[Vec<u8>]) -> Result<(), NoMemory>
    requires strings { length (pool_onto pools.now.strings []) ≤ 65535 }
    requires signatures { length (pool_onto pools.now.signatures []) ≤ 65535 }
    ensures { OnOk result (out.new.items ≡ out.old.items ++ pool_onto pools.now.strings (pool_onto pools.now.signatures (flat_map (λ c. c) (codes_of codes.now) ++ pools.now.data_pool))) }
{
    push_entries(out, pools.string_entries())?;
    push_entries(out, pools.signature_entries())?;
    push_codes(out, codes)?;
    push_bytes(out, pools.data_pool())
}

/// The bytes of the image of parts that pass no limit.
fn image_bytes(
    alloc: Global,
    parts: &Parts,
    pools: &Pools,
    codes: &[Vec<u8>],
    counts: &Counts,
) -> Result<Vec<u8>, NoMemory>
    requires pools { pools.now ≡ pools_of parts.now }
    requires rows { counts.now.rows ≡ counts_of (image_of_parts parts.now (codes_of codes.now)) }
    requires bytes { counts.now.bytes ≡ lengths_of (image_of_parts parts.now (codes_of codes.now)) }
    requires few_rows { (k : ℕ) → slice_index counts.now.rows k ≤ 65535 }
    requires few_bytes { (k : ℕ) → slice_index counts.now.bytes k ≤ 65535 }
    ensures { IfOk result (λ bytes. bytes.items ≡ onto (image_of_parts parts.now (codes_of codes.now)) []) }
{
    let size = counts.size();
    let zeros = (4 - size % 4) % 4;
    let whole = size + zeros;
    let name = pools.name(parts.name.as_slice());
    let mut out = Vec::with_capacity(alloc, whole as usize)?;
    push_header(&mut out, parts, name, counts, whole)?;
    push_tables(&mut out, parts, pools, codes)?;
    push_pools(&mut out, pools, codes)?;
    push_zeros(&mut out, zeros)?;
    Ok(out)
}

/// The bytes of the image of the parts of one assembly, with a code for each row of the methods' table. It is
/// [`WriteRefusal::Limit`] exactly where one of the limits 0 to 14 is passed, with the first of them: a table has more than
/// 16,383 rows, or the strings, the signatures, the codes or the data have more than 65,535 bytes.
pub fn write(
    alloc: Global,
    parts: &Parts,
    pools: &Pools,
    codes: &[Vec<u8>],
) -> Result<Vec<u8>, WriteRefusal>
    requires { pools.now ≡ pools_of parts.now }
    ensures written { IfOk result (λ bytes. bytes.items ≡ onto (image_of_parts parts.now (codes_of codes.now)) []) }
    ensures within { OnOk result (over_of_parts parts.now (codes_of codes.now) ≡ None) }
    ensures refused { IfErr result (Refuses (over_of_parts parts.now (codes_of codes.now))) }
{
    let counts = match counted(parts, pools, codes) {
        Ok(counts) => counts,
        Err(NoMemory) => return Err(WriteRefusal::NoMemory),
    };
    match passed(&counts) {
        Some(limit) => Err(WriteRefusal::Limit(limit)),
        None => match image_bytes(alloc, parts, pools, codes, &counts) {
            Ok(bytes) => Ok(bytes),
            Err(NoMemory) => Err(WriteRefusal::NoMemory),
        },
    }
}
