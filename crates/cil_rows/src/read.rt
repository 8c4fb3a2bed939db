//! Reading rows.

ghost use Rattle.std.specs.Prelude.{◌≡◌, ◌≤◌, Some, None, if◌then◌else◌};
ghost use Rattle.file_tables.specs.Metadata as metadata;

use crate::rows::TableRow;
use cil_tables::Tables;

/// A row of its type's table by its number, counted from 1.
pub fn read_row<R: TableRow>(tables: &Tables<'_>, n: u32) -> R
    requires first { 1 ≤ n }
    requires last { n ≤ metadata.row_count tables.now R.TABLE }
    ensures { result ≡ R.of_columns (metadata.column_of tables.now R.TABLE n) }
{
    R::from_row(&tables.row(R::TABLE, n))
}

/// A row of its type's table by its number, counted from 1; `None` exactly where the table has no such row.
pub fn find_row<R: TableRow>(tables: &Tables<'_>, n: u32) -> Option<R>
    ensures { result ≡ (if metadata.is_row_in tables.now R.TABLE n then Some (R.of_columns (metadata.column_of tables.now R.TABLE n)) else None) }
{
    if 1 <= n && n <= tables.rows(R::TABLE) {
        Some(read_row(tables, n))
    } else {
        None
    }
}
