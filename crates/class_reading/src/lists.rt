//! The fields and methods of a type: its lists, each up to that of the next type (ECMA-335 II.22.37).

ghost use Rattle.std.specs.Prelude.{◌≡◌, ◌<◌};
ghost use Rattle.file_tables.specs.Metadata.{row_count};
ghost use Rattle.world_rows.specs.Tokens.{type_defs, fields, methods};
ghost use Rattle.world_rows.specs.Rows.{list_end};

use cil_rows::{TypeDefRow, read_row};
use cil_tables::Tables;
use file_tables::numbers::{FIELD, METHOD_DEF, TYPE_DEF};

/// Where the lists of a type end: the rows behind their last ones, from 0.
#[derive(Clone, Copy)]
pub struct Ends {
    pub fields: u32,
    pub methods: u32,
}

/// Where the lists of a type end.
pub fn read_ends(tables: &Tables<'_>, n: u32) -> Ends
    requires { n < row_count tables.now type_defs }
    ensures fields { result.fields ≡ list_end tables.now fields 4 n }
    ensures methods { result.methods ≡ list_end tables.now methods 5 n }
{
    let count = tables.rows(TYPE_DEF);
    if n + 1 < count {
        let next: TypeDefRow = read_row(tables, n + 2);
        Ends {
            fields: next.first_field.saturating_sub(1),
            methods: next.first_method.saturating_sub(1),
        }
    } else {
        Ends {
            fields: tables.rows(FIELD),
            methods: tables.rows(METHOD_DEF),
        }
    }
}
