//! Rows, read at their offsets.

ghost use Rattle.std.specs.Prelude.{◌≡◌, ℕ, ◌<◌, ◌≤◌, ◌^◌, slice_index, take};
ghost use Rattle.file_tables.specs.Tables as tables;

use crate::shape::Widths;
use crate::view::number;
use file_tables::schema::MOST_COLUMNS;

/// The numbers of a row in the order of its table's columns (ECMA-335 II.22); those behind its last column are 0.
#[derive(Clone, Copy, Debug, PartialEq, Eq)]
pub struct Row {
    pub columns: [u32; MOST_COLUMNS],
}

/// The row with columns of these widths that begins at an offset.
pub fn read_row(region: &[u8], widths: &Widths, start: usize) -> Row
    requires few { widths.now.count ≤ 9 }
    requires small { start < 2 ^ 48 }
    ensures { (k : ℕ) → slice_index result.columns k ≡ slice_index (tables.numbers_at region.now start (take widths.now.count widths.now.columns)) k }
{
    let columns = &widths.columns[..widths.count];
    let mut numbers = [0; MOST_COLUMNS];
    let mut at = start;
    for (k, column) in columns.iter().enumerate() {
        let width = usize::from(*column);
        numbers[k] = number(region, at, width);
        at += width;
    }
    Row { columns: numbers }
}
