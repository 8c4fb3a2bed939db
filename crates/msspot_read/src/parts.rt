//! The parts of an image: its header, its tables and its pools, found in the bytes that hold it.

ghost use Rattle.std.specs.Prelude.{◌≡◌, ℕ, ◌+◌, ◌*◌, ◌<◌, ◌≤◌, length, take, slice_index, slice_get, get_or, nat_eq, Some, []};
ghost use Rattle.std.specs.List.{list_all};
ghost use Rattle.little_endian.specs.Numbers.{number};
ghost use Rattle.image_bytes.specs.Layout.{widths, total, padding, rows_of, view};
ghost use Rattle.image_form.specs.Whole.{table, bytes_at};
ghost use Rattle.msspot_read.specs.Places.{words, counts_at, lengths_at, table_start, pool_start};
ghost use Rattle.msspot_read.specs.Rows.{row_of, size_of, code_start};

use little_endian::read::{u16_at, u32_at};
use std::marker::Model;

/// How many tables an image has.
pub const TABLES: usize = 11;

/// The most columns of a table.
pub const MOST_COLUMNS: usize = 11;

const POOLS: usize = 4;

/// The places at which a pool begins or the last one ends.
const ENDS: usize = 5;

/// How many columns each table has.
const WIDTHS: [u8; TABLES] = [5, 3, 3, 3, 11, 1, 4, 9, 6, 1, 2];

/// The first bytes of every image: `MSSpot1` and a zero.
const MARKER: [u8; 8] = [0x4D, 0x53, 0x53, 0x70, 0x6F, 0x74, 0x31, 0x00];

/// The bytes of the header.
const HEADER: usize = 56;

/// Where the numbers of rows stand in the header, and the lengths of the pools.
const COUNTS: usize = 24;

const LENGTHS: usize = 46;

/// A row of a table: its numbers in the order of the table's columns; those behind its last column are 0.
#[derive(Clone, Copy, Debug, PartialEq, Eq)]
pub struct TinyRow {
    pub columns: [u16; MOST_COLUMNS],
}

/// The pools of an image, by their numbers.
pub const STRINGS: u8 = 0;

pub const SIGNATURES: u8 = 1;

pub const CODE: u8 = 2;

pub const DATA: u8 = 3;

/// Where the rows of each table begin, and where those of the last one end.
fn table_starts(bytes: &[u8]) -> ([u32; TABLES], u32)
    requires { HEADER ≤ length bytes.now }
    ensures starts { (t : ℕ) → t < 11 → slice_index result.0 t ≡ table_start bytes.now t }
    ensures end { result.1 ≡ total widths (counts_at bytes.now) + 56 }
    ensures small { result.1 ≤ 100000000 }
{
    let mut starts = [0; TABLES];
    let mut at = HEADER as u32;
    for t in 0..TABLES {
        let width = u32::from(WIDTHS[t]);
        let count = u16_at(bytes, COUNTS + 2 * t);
        let rows = u32::from(count);
        starts[t] = at;
        at += 2 * width * rows;
    }
    (starts, at)
}

/// Where the bytes of each pool begin, and where those of the last one end.
fn pool_starts(bytes: &[u8], first: u32) -> [u32; ENDS]
    requires long { HEADER ≤ length bytes.now }
    requires first { first ≡ total widths (counts_at bytes.now) + 56 }
    requires small { first ≤ 100000000 }
    ensures starts { (k : ℕ) → k < 5 → slice_index result k ≡ pool_start bytes.now k }
    ensures small { pool_start bytes.now 4 ≤ 200000000 }
{
    let mut starts = [first; ENDS];
    let mut at = first;
    for k in 0..POOLS {
        let size = u16_at(bytes, LENGTHS + 2 * k);
        at += u32::from(size);
        starts[k + 1] = at;
    }
    starts
}

/// A size with the bytes that fill it up to a multiple of four.
fn padded(size: u32) -> u32
    requires { size ≤ 200000000 }
    ensures { result ≡ size + padding size }
{
    (size + 3) / 4 * 4
}

fn is_blank(bytes: &[u8]) -> bool
    ensures { result ≡ list_all (λ b. nat_eq b 0) bytes.now }
{
    for byte in bytes {
        if *byte != 0 {
            return false;
        }
    }
    true
}

/// The numbers of a row of so many columns that begins at a place.
fn read_row(bytes: &[u8], width: usize, at: usize) -> TinyRow
    requires few { width ≤ 11 }
    requires inside { width * 2 + at ≤ length bytes.now }
    ensures { (k : ℕ) → slice_index result.columns k ≡ slice_index (words width at bytes.now) k }
{
    let mut columns = [0; MOST_COLUMNS];
    for k in 0..width {
        let number = u16_at(bytes, at + 2 * k);
        columns[k] = number;
    }
    TinyRow { columns }
}

/// The parts of an image. Contracts see them as the image.
#[derive(Debug, Drop)]
pub struct Parts<'a> {
    bytes: &'a [u8],
    tables: [u32; TABLES],
    pools: [u32; ENDS],
}

impl<'a> Model for Parts<'a> {
    ghost use Rattle.image_bytes.specs.Layout.{Image};

    ghost Value = { Image };

    ghost use Rattle.msspot_read.specs.Inside.{IsParts};
    ghost use Rattle.msspot_read.specs.Places.{image_at};

    ghost view = { λ p. image_at p.bytes.now };

    ghost invariant = { IsParts };
}

impl<'a> Parts<'a> {
    /// The parts of the image that begins there, by the header's numbers; `None` exactly where the marker isn't there,
    /// a byte that has to be zero isn't, or the size isn't the computed one or not inside the bytes.
    pub fn read(bytes: &'a [u8]) -> Option<Parts<'a>>
        ensures { result ≡ view bytes.now }
    {
        if bytes.len() < HEADER {
            return None;
        }
        if !bytes.starts_with(&MARKER) {
            return None;
        }
        if u16_at(bytes, 54) != 0 {
            return None;
        }
        let (tables, first) = table_starts(bytes);
        let pools = pool_starts(bytes, first);
        let end = pools[POOLS];
        let size = padded(end);
        if u32_at(bytes, 8) != size {
            return None;
        }
        if bytes.len() < size as usize {
            return None;
        }
        if !is_blank(&bytes[end as usize..size as usize]) {
            return None;
        }
        Some(Parts {
            bytes,
            tables,
            pools,
        })
    }

    /// The bytes of the image.
    pub fn size(&self) -> u32
        ensures { result ≡ size_of self.now }
    {
        padded(self.pools[POOLS])
    }

    pub fn version(&self) -> [u16; 4]
        ensures { result ≡ self.now.version }
    {
        let bytes = self.bytes;
        [
            u16_at(bytes, 12),
            u16_at(bytes, 14),
            u16_at(bytes, 16),
            u16_at(bytes, 18),
        ]
    }

    pub fn name(&self) -> u16
        ensures { result ≡ self.now.name }
    {
        u16_at(self.bytes, 20)
    }

    pub fn entry(&self) -> u16
        ensures { result ≡ self.now.entry }
    {
        u16_at(self.bytes, 22)
    }

    /// How many rows a table has; 0 where the number is no table's.
    pub fn rows(&self, table: u8) -> u16
        ensures { result ≡ rows_of self.now table }
    {
        if usize::from(table) < TABLES {
            u16_at(self.bytes, COUNTS + 2 * usize::from(table))
        } else {
            0
        }
    }

    /// A row of a table.
    pub fn row(&self, table: u8, n: u16) -> TinyRow
        requires { n < rows_of self.now table }
        ensures columns { (k : ℕ) → slice_index result.columns k ≡ slice_index (row_of self.now table n) k }
        ensures width { length (row_of self.now table n) ≡ slice_index widths table }
    {
        let bytes = self.bytes;
        let table = usize::from(table);
        let width = usize::from(WIDTHS[table]);
        let start = self.tables[table] as usize;
        read_row(bytes, width, start + 2 * width * usize::from(n))
    }

    /// The bytes of a pool.
    pub fn pool(&self, number: u8) -> &'a [u8]
        requires { number < 4 }
        ensures pool { result.now ≡ bytes_at self.now number }
        ensures small { length result.now < 65536 }
    {
        let number = usize::from(number);
        let start = self.pools[number] as usize;
        let size = usize::from(u16_at(self.bytes, LENGTHS + 2 * number));
        &self.bytes[start..start + size]
    }

    /// Where in the image the pool of codes begins.
    pub fn code_start(&self) -> u32
        ensures place { result ≡ code_start self.now }
        ensures small { result ≤ 200000000 }
    {
        self.pools[usize::from(CODE)]
    }
}
