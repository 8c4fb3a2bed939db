//! A sum over every column of every row.

use cil_tables::Tables;

/// How many rows there are, and the sum of their columns modulo 2^32.
#[derive(Clone, Copy)]
pub struct Total {
    pub rows: u32,
    pub columns: u32,
}

/// Reads every row of a table.
fn add_table(tables: &Tables<'_>, table: u8, sum: &mut Total) {
    for n in 1..=tables.rows(table) {
        let row = tables.row(table, n);
        sum.rows = sum.rows.wrapping_add(1);
        for column in row.columns {
            sum.columns = sum.columns.wrapping_add(column);
        }
    }
}

/// Reads every row of every table.
pub fn sum_of(tables: &Tables<'_>) -> Total {
    let mut sum = Total {
        rows: 0,
        columns: 0,
    };
    for table in 0..64 {
        add_table(tables, table, &mut sum);
    }
    sum
}
