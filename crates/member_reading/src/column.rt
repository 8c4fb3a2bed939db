//! The first row of a table that has a number in a column (ECMA-335 II.22).

ghost use Rattle.std.specs.Prelude.{◌≡◌, ℕ, ◌<◌, ◌^◌, IfOk, length, map, slice_index};
ghost use Rattle.std.specs.Option.{option_map};
ghost use Rattle.file_tables.specs.Metadata.{rows_of};
ghost use Rattle.world_rows.specs.Rows.{row_with};
ghost use Rattle.member_reading.specs.Columns.{column_numbers, FindsRows};

use cil_tables::{Row, Tables};
use first_places::first_places;
use plain_types::fault::NoMemory;
use std::alloc::Global;
use std::collections::BTreeMap;

/// The number in a column of each row.
fn column_numbers(
    alloc: Global,
    tables: &Tables<'_>,
    table: u8,
    column: usize,
) -> Result<Vec<u32>, NoMemory>
    requires { column < 9 }
    ensures numbers { IfOk result (λ numbers. numbers.items ≡ column_numbers tables.now table column) }
    ensures few { IfOk result (λ numbers. length numbers.items < 2 ^ 32) }
{
    let mut numbers = Vec::new(alloc);
    for n in 0..tables.rows(table) {
        let row = tables.row(table, n + 1);
        numbers.push(row.columns[column])?;
    }
    Ok(numbers)
}

/// For each number in a column the first row that has it.
#[tactic(auto, using(crate::proofs::ColumnLaws::rows_found))]
pub fn first_rows(
    alloc: Global,
    tables: &Tables<'_>,
    table: u8,
    column: usize,
) -> Result<BTreeMap<u32, u32>, NoMemory>
    requires { column < 9 }
    ensures { IfOk result (FindsRows tables.now table column) }
{
    let numbers = column_numbers(alloc, tables, table, column)?;
    Ok(first_places(alloc, numbers)?)
}

/// The first row of a table that has a number in a column, by the places of [`first_rows`].
#[tactic(auto, using(crate::proofs::ColumnLaws::no_place, crate::proofs::ColumnLaws::place_past, crate::proofs::ColumnLaws::place_within))]
pub fn first_row(
    tables: &Tables<'_>,
    places: &BTreeMap<u32, u32>,
    table: u8,
    column: usize,
    number: u32,
) -> Option<Row>
    requires { FindsRows tables.now table column places.now }
    ensures { (k : ℕ) → option_map (λ row. slice_index row.columns k) result ≡ option_map (λ row. slice_index row k) (row_with column number (rows_of tables.now table)) }
{
    let place = *places.get(&number)?;
    if place >= tables.rows(table) {
        return None;
    }
    Some(tables.row(table, place + 1))
}
