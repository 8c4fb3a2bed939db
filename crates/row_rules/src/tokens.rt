//! The rows that tokens name (ECMA-335 II.22, II.24.2.6).

ghost use Rattle.std.specs.Prelude.{◌≡◌};
ghost use Rattle.file_tables.specs.Metadata.{row_count};
ghost use Rattle.kept_rules.specs.Row.{by_type, in_scope};
ghost use Rattle.world_rows.specs.Tokens.{from_zero, type_token, scope_of};
ghost use Rattle.row_rules.specs.Links.{row_at, row_if};

use crate::rules::RowPlace;
use cil_tables::Tables;
use file_tables::numbers::{ASSEMBLY_REF, TYPE_DEF, TYPE_REF, TYPE_SPEC};
use file_tables::schema::Coded;
use row_numbers::Table;
use type_names::{Token, from_zero, split};

/// The row of a table that a number from 1 names. Row 0 is past the last.
pub fn place(tables: &Tables<'_>, file: u16, table: Table, number: u8, row: u32) -> RowPlace
    ensures { result ≡ record { file = file; table = table; row = from_zero (row_count tables.now number) row } }
{
    RowPlace {
        file,
        table,
        row: from_zero(tables.rows(number), row),
    }
}

/// The row of a type that a token names: one of TypeDef, TypeRef or TypeSpec, and past the last type where it is one of no such
/// row.
#[tactic(auto, using(crate::proofs::TokenLaws::type_def, crate::proofs::TokenLaws::type_ref, crate::proofs::TokenLaws::type_spec, crate::proofs::TokenLaws::other_type))]
pub fn type_place(tables: &Tables<'_>, file: u16, token: Token) -> RowPlace
    ensures { row_at result ≡ by_type file (type_token tables.now token.table token.row) }
{
    if token.table == TYPE_DEF {
        place(tables, file, Table::TypeDef, TYPE_DEF, token.row)
    } else if token.table == TYPE_REF {
        place(tables, file, Table::TypeRef, TYPE_REF, token.row)
    } else if token.table == TYPE_SPEC {
        place(tables, file, Table::TypeSpec, TYPE_SPEC, token.row)
    } else {
        place(tables, file, Table::TypeDef, TYPE_DEF, 0)
    }
}

/// The row that the scope of a reference to a type names: an assembly, or the reference to the type around it. `None` exactly
/// where it is a module's (ECMA-335 II.22.38).
#[tactic(auto, using(crate::proofs::TokenLaws::assembly_scope, crate::proofs::TokenLaws::inner_scope, crate::proofs::TokenLaws::no_scope))]
pub fn scope_place(tables: &Tables<'_>, file: u16, scope: u32) -> Option<RowPlace>
    ensures { row_if result ≡ in_scope file (scope_of tables.now scope) }
{
    let token = split(Coded::ResolutionScope, scope);
    if token.table == ASSEMBLY_REF {
        Some(place(tables, file, Table::AssemblyRef, ASSEMBLY_REF, token.row))
    } else if token.table == TYPE_REF {
        Some(place(tables, file, Table::TypeRef, TYPE_REF, token.row))
    } else {
        None
    }
}
