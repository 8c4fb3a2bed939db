//! Rules 12 and 13: what the rows name is there.

ghost use Rattle.std.specs.Prelude.{◌≡◌, ℕ, ◌<◌, ◌≤◌, Some, None, IfErr, OnOk, slice_index, nat_le, max, ◌&&◌, ◌+◌, length, replicate, false};
ghost use Rattle.std.specs.List.{flat_map, list_all, enumerate_from};
ghost use Rattle.file_tables.specs.Schema.{columns_of};
ghost use Rattle.file_tables.specs.Rules.{first_broken};
ghost use Rattle.file_tables.specs.Metadata as metadata;

use crate::fault::{broken, broken_row};
use crate::row::Row;
use crate::tables::Tables;
use crate::text_index::{MOST_PLACES, SHORTEST, TextIndex};
use file_tables::numbers::{ASSEMBLY, NO_TABLE};
use file_tables::schema::{Coded, Column, LOOKED_AT, MOST_COLUMNS, columns};
use plain_types::fault::Fault;

/// The places of a small table: enough for a heap below 64 KB.
const FEW_PLACES: usize = 4096;

/// The table that a coded index names, and its row (ECMA-335 II.24.2.6).
#[derive(Clone, Copy)]
struct Token {
    table: u8,
    row: u32,
}

#[tactic(auto, using(crate::proofs::SchemaLaws::tag_bits_few))]
fn split(coded: Coded, token: u32) -> Token
    ensures table { result.table ≡ metadata.token_table coded token }
    ensures row { result.row ≡ metadata.token_row coded token }
{
    let bits = coded.tag_bits();
    let row = token >> bits;
    let tag = (token % (1u32 << bits)) as usize;
    let tables = coded.tables();
    let table = if tag < tables.len() {
        tables[tag]
    } else {
        NO_TABLE
    };
    Token { table, row }
}

/// The table has a row of that number.
fn has_row(tables: &Tables<'_>, table: u8, row: u32) -> bool
    ensures { result ≡ metadata.is_row_in tables.now table row }
{
    1 <= row && row <= tables.rows(table)
}

/// Rule 12 for one column, of which the row before has the number `before`.
#[tactic(auto, unfolding(file_tables::specs::Metadata::is_column))]
fn keeps_column(
    tables: &Tables<'_>,
    texts: &TextIndex<'_>,
    column: Column,
    before: u32,
    number: u32,
) -> bool
    requires { texts.now ≡ tables.now.strings }
    ensures { result ≡ metadata.is_column tables.now column before number }
{
    match column {
        Column::Two | Column::Four | Column::Guid => true,
        Column::Strings => texts.begins(number),
        Column::Blob => tables.blob(number).is_some(),
        Column::RowOf(table) => has_row(tables, table, number),
        Column::ListOf(table) => continues_list(tables, table, before, number),
        Column::Token(coded) => {
            let token = split(coded, number);
            has_row(tables, token.table, token.row)
        }
        Column::TokenOrNone(coded) => {
            let token = split(coded, number);
            token.table <= 63 && token.row <= tables.rows(token.table)
        }
    }
}

/// A list begins at a row of the table or behind its last, and no earlier than the list before.
fn continues_list(tables: &Tables<'_>, table: u8, before: u32, number: u32) -> bool
    ensures { result ≡ (nat_le (max 1 before) number && nat_le number (metadata.row_count tables.now table + 1)) }
{
    let last = tables.rows(table) as u64 + 1;
    1.max(before) <= number && number as u64 <= last
}

/// Rule 12 for one row of which every column is read, with the row before it.
#[tactic(auto, using(crate::proofs::SchemaLaws::columns_few))]
fn keeps_columns(
    tables: &Tables<'_>,
    texts: &TextIndex<'_>,
    table: u8,
    before: &Row,
    row: &Row,
) -> bool
    requires table { table < 64 }
    requires texts { texts.now ≡ tables.now.strings }
    ensures { result ≡ list_all (λ c. metadata.is_column tables.now c.1 (slice_index before.now.columns c.0) (slice_index row.now.columns c.0)) (enumerate_from 0 (columns_of table)) }
{
    for (k, column) in columns(table).iter().enumerate() {
        if !keeps_column(tables, texts, *column, before.columns[k], row.columns[k]) {
            return false;
        }
    }
    true
}

/// The first row of a table that breaks rule 12.
fn check_table(tables: &Tables<'_>, texts: &TextIndex<'_>, table: u8) -> Result<(), Fault>
    requires table { table < 64 }
    requires texts { texts.now ≡ tables.now.strings }
    ensures broken { IfErr result (λ fault. first_broken (metadata.rules_of_rows tables.now table) ≡ Some fault) }
    ensures kept { OnOk result (first_broken (metadata.rules_of_rows tables.now table) ≡ None) }
{
    let mut before = Row {
        columns: [0; MOST_COLUMNS],
    };
    for k in 0..tables.rows(table) {
        let row = tables.row(table, k + 1);
        if !keeps_columns(tables, texts, table, &before, &row) {
            return Err(broken_row(12, table, k + 1));
        }
        before = row;
    }
    Ok(())
}

/// The first row that breaks rule 12, by table and row.
fn check_tables(tables: &Tables<'_>, texts: &TextIndex<'_>) -> Result<(), Fault>
    requires { texts.now ≡ tables.now.strings }
    ensures broken { IfErr result (λ fault. first_broken (flat_map (metadata.rules_of_rows tables.now) LOOKED_AT) ≡ Some fault) }
    ensures kept { OnOk result (first_broken (flat_map (metadata.rules_of_rows tables.now) LOOKED_AT) ≡ None) }
{
    for table in LOOKED_AT {
        check_table(tables, texts, table)?;
    }
    Ok(())
}

/// The first broken rule of 12 and 13, by a blank table of places.
#[tactic(auto, using(crate::proofs::CheckLaws::broken_rows, crate::proofs::CheckLaws::broken_count, crate::proofs::CheckLaws::all_kept), unfolding(file_tables::specs::Metadata::has_one_assembly))]
fn check_with(tables: &Tables<'_>, known: &mut [bool]) -> Result<(), Fault>
    requires room { 4 ≤ length known.old }
    requires most { length known.old ≤ MOST_PLACES }
    requires blank { known.old ≡ replicate (length known.old) false }
    ensures broken { IfErr result (λ fault. first_broken (metadata.rules_of_tables tables.now) ≡ Some fault) }
    ensures kept { OnOk result (first_broken (metadata.rules_of_tables tables.now) ≡ None) }
{
    let texts = TextIndex::new(tables.strings(), known);
    check_tables(tables, &texts)?;
    if tables.rows(ASSEMBLY) != 1 {
        return Err(broken(13, 0));
    }
    Ok(())
}

/// The first broken rule of 12 and 13, with a table of 256 KB on the stack, which no file with a small heap pays for.
#[inline(never)]
fn check_long(tables: &Tables<'_>) -> Result<(), Fault>
    ensures broken { IfErr result (λ fault. first_broken (metadata.rules_of_tables tables.now) ≡ Some fault) }
    ensures kept { OnOk result (first_broken (metadata.rules_of_tables tables.now) ≡ None) }
{
    let mut known = [false; MOST_PLACES];
    check_with(tables, &mut known)
}

/// The first broken rule of 12 and 13.
pub fn check_rows(tables: &Tables<'_>) -> Result<(), Fault>
    ensures broken { IfErr result (λ fault. first_broken (metadata.rules_of_tables tables.now) ≡ Some fault) }
    ensures kept { OnOk result (first_broken (metadata.rules_of_tables tables.now) ≡ None) }
{
    if tables.strings().len() / SHORTEST >= FEW_PLACES / 4 {
        return check_long(tables);
    }
    let mut known = [false; FEW_PLACES];
    check_with(tables, &mut known)
}
