//! How many rows the tables have, and how wide their columns are (ECMA-335 II.24.2.6).

ghost use Rattle.std.specs.Prelude.{◌≡◌, ◌+◌, ◌*◌, ◌<◌, ◌≤◌, ◌^◌, slice_index, take};
ghost use Rattle.file_tables.specs.Tables as tables;
ghost use Rattle.cil_tables.specs.Shape.{seen};

use file_tables::bytes::has_bit;
use file_tables::numbers::TABLES;
use file_tables::schema::{Coded, Column, MOST_COLUMNS, columns};

/// What the widths of columns depend on.
#[derive(Clone, Copy, Debug)]
pub struct Shape {
    /// Which indexes into heaps are wide.
    pub heap_sizes: u8,
    /// For each table how many rows it has.
    pub counts: [u32; TABLES],
}

/// How many rows a table has; none where the number is no table's.
pub fn count(shape: &Shape, table: u8) -> u32
    ensures { result ≡ tables.count_of (seen shape.now) table }
{
    if table < 64 {
        shape.counts[table as usize]
    } else {
        0
    }
}

/// One of the tables of a coded index has too many rows for two bytes.
#[tactic(auto, using(crate::proofs::SchemaLaws::tag_bits_few), unfolding(file_tables::specs::Tables::is_wide_token))]
fn is_wide(shape: &Shape, coded: Coded) -> bool
    ensures { result ≡ tables.is_wide_token (seen shape.now) coded }
{
    let limit = 1u32 << (16 - coded.tag_bits());
    coded
        .tables()
        .iter()
        .any(|table| limit <= count(shape, *table))
}

/// Two bytes, or four where an index is wide.
fn width_if(wide: bool) -> u8
    ensures { result ≡ tables.width_if wide }
{
    if wide { 4 } else { 2 }
}

/// The width of a column.
#[tactic(auto, unfolding(file_tables::specs::Tables::width_of))]
fn width(shape: &Shape, column: Column) -> u8
    ensures width { result ≡ tables.width_of (seen shape.now) column }
    ensures small { result ≤ 4 }
{
    let heaps = u64::from(shape.heap_sizes);
    match column {
        Column::Two => 2,
        Column::Four => 4,
        Column::Strings => width_if(has_bit(heaps, 0)),
        Column::Guid => width_if(has_bit(heaps, 1)),
        Column::Blob => width_if(has_bit(heaps, 2)),
        Column::RowOf(table) | Column::ListOf(table) => width_if(count(shape, table) >= 65536),
        Column::Token(coded) | Column::TokenOrNone(coded) => width_if(is_wide(shape, coded)),
    }
}

/// The widths of a table's columns.
#[derive(Clone, Copy, Debug)]
pub struct Widths {
    /// The widths of the columns in their order, and zeros behind them.
    pub columns: [u8; MOST_COLUMNS],
    /// How many columns there are.
    pub count: usize,
    /// The width of a row.
    pub row: usize,
}

/// The widths of a table's columns, worked out once.
#[tactic(auto, using(crate::proofs::SchemaLaws::columns_few), unfolding(file_tables::specs::Tables::row_width, file_tables::specs::Tables::widths_of))]
pub fn column_widths(shape: &Shape, table: u8) -> Widths
    requires { table < 64 }
    ensures columns { take result.count result.columns ≡ tables.widths_of (seen shape.now) table }
    ensures few { result.count ≤ 9 }
    ensures row { result.row ≡ tables.row_width (seen shape.now) table }
    ensures small { result.row ≤ 36 }
{
    let of = columns(table);
    let mut widths = [0; MOST_COLUMNS];
    let mut row = 0;
    for (k, column) in of.iter().enumerate() {
        let width = width(shape, *column);
        widths[k] = width;
        row += usize::from(width);
    }
    Widths {
        columns: widths,
        count: of.len(),
        row,
    }
}
