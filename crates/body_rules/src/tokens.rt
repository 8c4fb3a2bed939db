//! The rows that tokens of code name (ECMA-335 II.22, III.1.9).

ghost use Rattle.std.specs.Prelude.{◌≡◌, ◌==◌, ◌<◌, ℕ};
ghost use Rattle.kept_rules.specs.Row.{by_type, by_field, by_method};
ghost use Rattle.world_rows.specs.Tokens.{table_of, number_of, type_named, field_named, method_named};
ghost use Rattle.row_rules.specs.Links.{row_at};
ghost use Rattle.body_rules.specs.References.{all_before};

use crate::references::{field_number, is_field, method_number};
use cil_tables::Tables;
use file_tables::numbers::{FIELD, MEMBER_REF, METHOD_DEF, NO_TABLE};
use row_numbers::Table;
use row_rules::{RowPlace, place, type_place};
use type_names::{Token, split_token};

/// The table and the row of a token. One of more than four bytes is of no table.
fn split_number(token: u64) -> Token
    ensures table { (t : ℕ) → t < 64 → (result.table == t) ≡ (table_of token == t) }
    ensures row { result.row ≡ number_of token }
{
    if token < 0x1_0000_0000 {
        split_token(token as u32)
    } else {
        Token {
            table: NO_TABLE,
            row: (token % 0x100_0000) as u32,
        }
    }
}

/// The row of a type that a token names, as [`type_place`] tells it.
pub fn type_row(tables: &Tables<'_>, file: u16, token: u64) -> RowPlace
    ensures { row_at result ≡ by_type file (type_named tables.now token) }
{
    type_place(tables, file, split_number(token))
}

/// The row of a field that a token names: one of Field, or a reference to a field, and past the last field where it is neither.
/// `counts` are those of the rows of MemberRef.
pub fn field_row(tables: &Tables<'_>, counts: &[u32], file: u16, token: u64) -> RowPlace
    requires { counts.now ≡ all_before tables.now }
    ensures { row_at result ≡ by_field file (field_named tables.now token) }
{
    let at = split_number(token);
    if at.table == FIELD {
        return place(tables, file, Table::Field, FIELD, at.row);
    }
    if at.table == MEMBER_REF && at.row > 0 && is_field(tables, at.row - 1) {
        return RowPlace {
            file,
            table: Table::FieldRef,
            row: field_number(tables, counts, at.row - 1),
        };
    }
    place(tables, file, Table::Field, FIELD, 0)
}

/// The row of a method that a token names: one of MethodDef, or a reference to a method, and past the last method where it is
/// neither. `counts` are those of the rows of MemberRef.
pub fn method_row(tables: &Tables<'_>, counts: &[u32], file: u16, token: u64) -> RowPlace
    requires { counts.now ≡ all_before tables.now }
    ensures { row_at result ≡ by_method file (method_named tables.now token) }
{
    let at = split_number(token);
    if at.table == METHOD_DEF {
        return place(tables, file, Table::MethodDef, METHOD_DEF, at.row);
    }
    if at.table == MEMBER_REF && at.row > 0 && !is_field(tables, at.row - 1) {
        return RowPlace {
            file,
            table: Table::MethodRef,
            row: method_number(tables, counts, at.row - 1),
        };
    }
    place(tables, file, Table::MethodDef, METHOD_DEF, 0)
}
