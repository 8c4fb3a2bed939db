//! The counts of a file's rows.

ghost use Rattle.std.specs.Prelude.{◌≡◌, ◌<◌, count_by, slice_index_or, []};
ghost use Rattle.file_tables.specs.Metadata.{row_count, rows_of};
ghost use Rattle.world_rows.specs.Tokens.{member_refs, is_field_ref, begins_field};
ghost use Rattle.row_counts.specs.Counts.{IsCount};

use cil_rows::{MemberRefRow, read_row};
use cil_tables::Tables;
use file_tables::numbers::{
    ASSEMBLY_REF, FIELD, MEMBER_REF, METHOD_DEF, TYPE_DEF, TYPE_REF, TYPE_SPEC,
};
use row_numbers::PerTable;

/// A signature that is a field's begins so (ECMA-335 II.23.2.4).
const FIELD_SIGNATURE: u8 = 6;

/// The signature is a field's.
pub fn begins_field(blob: &[u8]) -> bool
    ensures { result ≡ begins_field blob.now }
{
    match blob.first() {
        Some(first) => *first == FIELD_SIGNATURE,
        None => false,
    }
}

/// The row of MemberRef, from 0, is a reference to a field: its signature is one of a field (ECMA-335 II.22.25).
pub fn is_field_reference(tables: &Tables<'_>, n: u32) -> bool
    requires { n < row_count tables.now member_refs }
    ensures { result ≡ is_field_ref tables.now (slice_index_or (rows_of tables.now member_refs) n []) }
{
    let _few = tables.rows(MEMBER_REF);
    let row: MemberRefRow = read_row(tables, n + 1);
    begins_field(tables.blob(row.signature).unwrap_or(&[]))
}

/// How many rows of MemberRef are references to fields.
fn count_field_refs(tables: &Tables<'_>) -> u32
    ensures { result ≡ count_by (is_field_ref tables.now) (rows_of tables.now member_refs) }
{
    let mut count: u32 = 0;
    for n in 0..tables.rows(MEMBER_REF) {
        if is_field_reference(tables, n) {
            count += 1;
        }
    }
    count
}

/// How many rows each table of a file has, references to fields and to methods apart.
pub fn count_rows(tables: &Tables<'_>) -> PerTable
    ensures { IsCount tables.now result }
{
    let field_refs = count_field_refs(tables);
    PerTable {
        assembly_refs: tables.rows(ASSEMBLY_REF),
        type_refs: tables.rows(TYPE_REF),
        field_refs,
        method_refs: tables.rows(MEMBER_REF) - field_refs,
        types: tables.rows(TYPE_DEF),
        fields: tables.rows(FIELD),
        methods: tables.rows(METHOD_DEF),
        specs: tables.rows(TYPE_SPEC),
    }
}
