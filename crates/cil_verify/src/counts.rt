//! How many types and methods the files behind the base library have.

ghost use Rattle.std.specs.Prelude.{◌≡◌};
ghost use Rattle.world_rows.specs.Tokens.{type_defs, methods};
ghost use Rattle.cil_verify.specs.Counts.{rows_behind};

use cil_world::World;
use file_tables::numbers::{METHOD_DEF, TYPE_DEF};

/// How many rows of a table the files behind the first two have.
fn count_rows(world: &World<'_>, table: u8) -> u64
    ensures { result ≡ rows_behind world.now table }
{
    let mut count = 0;
    for file in 2..world.files() {
        let tables = world.tables(file);
        count += u64::from(tables.rows(table));
    }
    count
}

/// How many types the files behind the base library's two have: the rows of their TypeDef tables (ECMA-335 II.22.37), with the row
/// `<Module>` of each.
pub fn count_types(world: &World<'_>) -> u64
    ensures { result ≡ rows_behind world.now type_defs }
{
    count_rows(world, TYPE_DEF)
}

/// How many methods the files behind the base library's two have: the rows of their MethodDef tables (ECMA-335 II.22.26).
pub fn count_methods(world: &World<'_>) -> u64
    ensures { result ≡ rows_behind world.now methods }
{
    count_rows(world, METHOD_DEF)
}
