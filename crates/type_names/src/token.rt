//! Tokens of tables (ECMA-335 II.22, II.24.2.6).

ghost use Rattle.std.specs.Prelude.{◌≡◌};
ghost use Rattle.file_tables.specs.Metadata.{token_table, token_row};
ghost use Rattle.world_rows.specs.Tokens.{from_zero, table_of, number_of};

use file_tables::numbers::NO_TABLE;
use file_tables::schema::Coded;

/// A table, and a row of it that counts from 1.
#[derive(Clone, Copy)]
pub struct Token {
    pub table: u8,
    pub row: u32,
}

/// What a coded index names (ECMA-335 II.24.2.6).
#[tactic(auto, using(cil_tables::proofs::SchemaLaws::tag_bits_few))]
pub fn split(coded: Coded, token: u32) -> Token
    ensures table { result.table ≡ token_table coded token }
    ensures row { result.row ≡ token_row coded token }
{
    let bits = coded.tag_bits();
    let row = token >> bits;
    let tag = (token % (1u32 << bits)) as usize;
    let tables = coded.tables();
    let table = if tag < tables.len() {
        tables[tag]
    } else {
        NO_TABLE
    };
    Token { table, row }
}

/// What a token of code and of headers names (ECMA-335 II.22).
pub fn split_token(token: u32) -> Token
    ensures table { result.table ≡ table_of token }
    ensures row { result.row ≡ number_of token }
{
    Token {
        table: (token >> 24) as u8,
        row: token % 0x100_0000,
    }
}

/// A row that counts from 1, of a table with so many, as one that counts from 0. Row 0 is past the last.
#[tactic(auto, using(crate::proofs::RowLoops::from_zero_is))]
pub fn from_zero(count: u32, row: u32) -> u32
    ensures { result ≡ from_zero count row }
{
    if row == 0 { count } else { row - 1 }
}
