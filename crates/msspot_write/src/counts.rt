//! What the limits count, and the first that is passed.

ghost use Rattle.std.specs.Prelude.{◌≡◌, ℕ, ◌+◌, ◌≤◌, ◌++◌, IfOk, length, map, slice_index};
ghost use Rattle.std.specs.List.{flat_map};
ghost use Rattle.image_bytes.specs.Layout.{counts_of, lengths_of, total, widths, unpadded};
ghost use Rattle.msspot_write.specs.Parts.{image_of_parts, pools_of, rows_of, tables, first_over, most as most_of};
ghost use Rattle.msspot_write.specs.Written.{codes_of};

use crate::parts::Parts;
use crate::pooling::Pools;
use plain_types::fault::{Limit, NoMemory};

/// Why no bytes are written.
#[derive(Clone, Copy, Debug, PartialEq, Eq)]
pub enum WriteRefusal {
    /// The first limit of 0 to 14 that is passed, with what was counted. The assembly's number is 0.
    Limit(Limit),
    /// The host has no memory left.
    NoMemory,
}

/// The rows that a table may have.
const MOST_ROWS: u64 = 16_383;

/// The bytes that a pool may have.
const MOST_BYTES: u64 = 65_535;

/// How many columns of two bytes each table has.
const WIDTHS: [u64; 11] = [5, 3, 3, 3, 11, 1, 4, 9, 6, 1, 2];

/// What the header counts.
#[derive(Clone, Copy)]
pub struct Counts {
    /// The rows of each table.
    pub rows: [u64; 11],
    /// The bytes of the strings, the signatures, the codes and the data.
    pub bytes: [u64; 4],
}

/// The bytes of all codes.
fn code_bytes(codes: &[Vec<u8>]) -> Result<u64, NoMemory>
    ensures { IfOk result (λ n. n ≡ length (flat_map (λ c. c) (codes_of codes.now))) }
{
    let mut size: u64 = 0;
    for code in codes {
        size = size.checked_add(code.len() as u64).ok_or(NoMemory)?;
    }
    Ok(size)
}

/// How many rows a table has.
fn row_count(parts: &Parts, table: usize) -> u64
    ensures { result ≡ length (rows_of parts.now table) }
{
    parts.rows(table).len() as u64
}

/// How many rows each table has.
fn row_counts(parts: &Parts) -> [u64; 11]
    ensures { result ≡ map (λ t. length (rows_of parts.now t)) tables }
{
    [
        row_count(parts, 0),
        row_count(parts, 1),
        row_count(parts, 2),
        row_count(parts, 3),
        row_count(parts, 4),
        row_count(parts, 5),
        row_count(parts, 6),
        row_count(parts, 7),
        row_count(parts, 8),
        row_count(parts, 9),
        row_count(parts, 10),
    ]
}

/// What the header counts of parts.
pub fn counted(parts: &Parts, pools: &Pools, codes: &[Vec<u8>]) -> Result<Counts, NoMemory>
    requires { pools.now ≡ pools_of parts.now }
    ensures rows { IfOk result (λ c. c.rows ≡ counts_of (image_of_parts parts.now (codes_of codes.now))) }
    ensures bytes { IfOk result (λ c. c.bytes ≡ lengths_of (image_of_parts parts.now (codes_of codes.now))) }
{
    let rows = row_counts(parts);
    let [strings, signatures] = pools.sizes();
    let code = code_bytes(codes)?;
    let data = pools.data_pool().len() as u64;
    Ok(Counts {
        rows,
        bytes: [strings, signatures, code, data],
    })
}

/// What a limit of 0 to 14 allows.
fn most(limit: u8) -> u64
    ensures { result ≡ most_of limit }
{
    if limit < 11 { MOST_ROWS } else { MOST_BYTES }
}

/// The first limit that is passed of those from a number on.
fn first_passed(limit: u8, counts: &[u64]) -> Option<Limit>
    requires { limit + length counts.now ≤ 255 }
    ensures { result ≡ first_over limit counts.now }
{
    let mut number = limit;
    for count in counts {
        if *count > most(number) {
            return Some(Limit {
                number,
                count: *count,
                assembly: 0,
            });
        }
        number += 1;
    }
    None
}

/// The first limit of 0 to 14 that is passed.
pub fn passed(counts: &Counts) -> Option<Limit>
    requires { length counts.now.rows ≡ 11 }
    ensures { result ≡ first_over 0 (counts.now.rows ++ counts.now.bytes) }
{
    match first_passed(0, &counts.rows) {
        Some(limit) => Some(limit),
        None => first_passed(11, &counts.bytes),
    }
}

/// The bytes of all rows.
fn tables_size(rows: &[u64; 11]) -> u32
    requires { (k : ℕ) → slice_index rows.now k ≤ 65535 }
    ensures size { result ≡ total widths rows.now }
    ensures small { result ≤ 10000000 }
{
    let mut size: u64 = 0;
    for (table, width) in WIDTHS.iter().enumerate() {
        size += 2 * (width * rows[table]);
    }
    size as u32
}

impl Counts {
    /// The bytes of the image, without the zeros at its end.
    pub fn size(&self) -> u32
        requires rows { (k : ℕ) → slice_index self.now.rows k ≤ 65535 }
        requires bytes { (k : ℕ) → slice_index self.now.bytes k ≤ 65535 }
        ensures size { result ≡ unpadded self.now.rows self.now.bytes }
        ensures small { result ≤ 11000000 }
    {
        let [strings, signatures, code, data] = self.bytes;
        let tables = tables_size(&self.rows);
        56 + tables + (strings + signatures + code + data) as u32
    }
}
