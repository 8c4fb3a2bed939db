//! The rows of MemberRef as references to fields and to methods, each numbered apart (ECMA-335 II.22.25).

ghost use Rattle.std.specs.Prelude.{◌≡◌, ◌-◌, ◌+◌, ◌≤◌, IfOk, [], count_by, length, map, slice_index_or, take};
ghost use Rattle.std.specs.List.{range_with_len};
ghost use Rattle.file_tables.specs.Metadata.{row_count, rows_of};
ghost use Rattle.world_rows.specs.Tokens.{member_refs, bytes_at, is_field_ref, is_method_ref};
ghost use Rattle.body_rules.specs.References.{fields_before, all_before};

use cil_tables::Tables;
use file_tables::numbers::MEMBER_REF;
use plain_types::fault::NoMemory;
use row_counts::{begins_field, is_field_reference};
use std::alloc::Global;

/// How many of the first rows of MemberRef are references to fields, for each number of rows from 0 to all of them.
pub fn count_fields(alloc: Global, tables: &Tables<'_>) -> Result<Vec<u32>, NoMemory>
    ensures { IfOk result (λ counts. counts.items ≡ all_before tables.now) }
{
    let mut count: u32 = 0;
    let mut counts = vec![in alloc; 0]?;
    for n in 0..tables.rows(MEMBER_REF) {
        count += u32::from(is_field_reference(tables, n));
        counts.push(count)?;
    }
    Ok(counts)
}

/// How many of the first `n` rows of MemberRef are references to fields.
pub fn field_number(tables: &Tables<'_>, counts: &[u32], n: u32) -> u32
    requires { counts.now ≡ all_before tables.now }
    ensures exact { result ≡ fields_before tables.now n }
    ensures few { result ≤ n }
    ensures rows { result ≤ row_count tables.now member_refs }
{
    let last = n.min(tables.rows(MEMBER_REF));
    counts[last as usize]
}

/// How many of the first `n` rows of MemberRef are references to methods.
pub fn method_number(tables: &Tables<'_>, counts: &[u32], n: u32) -> u32
    requires { counts.now ≡ all_before tables.now }
    ensures { result ≡ count_by (is_method_ref tables.now) (take n (rows_of tables.now member_refs)) }
{
    let last = n.min(tables.rows(MEMBER_REF));
    last - field_number(tables, counts, last)
}

/// Whether the row of MemberRef, from 0, is a reference to a field. A row past the last has the blob at 0 for a signature.
pub fn is_field(tables: &Tables<'_>, n: u32) -> bool
    ensures { result ≡ is_field_ref tables.now (slice_index_or (rows_of tables.now member_refs) n []) }
{
    if n < tables.rows(MEMBER_REF) {
        is_field_reference(tables, n)
    } else {
        begins_field(tables.blob(0).unwrap_or(&[]))
    }
}
