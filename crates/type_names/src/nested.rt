//! Which types are nested in which (II.22.32).

ghost use Rattle.std.specs.Prelude.{◌≡◌, ◌+◌, ◌<◌, ◌^◌, IfOk, length};
ghost use Rattle.std.specs.Ordering.{nat_cmp};
ghost use Rattle.file_tables.specs.Metadata.{row_count};
ghost use Rattle.world_rows.specs.Tokens.{nested_classes};
ghost use Rattle.world_rows.specs.Rows.{enclosing_of};
ghost use Rattle.first_places.specs.Places.{FindsFirst};
ghost use Rattle.type_names.specs.Names.{nested_types};

use cil_rows::{NestedClassRow, find_row, read_row};
use cil_tables::Tables;
use file_tables::numbers::NESTED_CLASS;
use first_places::first_places;
use plain_types::fault::NoMemory;
use std::alloc::Global;
use std::collections::BTreeMap;

/// The nested type of each row.
fn read_nested(alloc: Global, tables: &Tables<'_>) -> Result<Vec<u32>, NoMemory>
    ensures types { IfOk result (λ types. types.items ≡ nested_types tables.now) }
    ensures few { IfOk result (λ types. length types.items < 2 ^ 32) }
{
    let mut types = Vec::new(alloc);
    for n in 0..tables.rows(NESTED_CLASS) {
        let row: NestedClassRow = read_row(tables, n + 1);
        types.push(row.nested)?;
    }
    Ok(types)
}

/// For each nested type the first row that tells what it is nested in.
pub fn nested_places(alloc: Global, tables: &Tables<'_>) -> Result<BTreeMap<u32, u32>, NoMemory>
    ensures { IfOk result (FindsFirst nat_cmp (nested_types tables.now)) }
{
    first_places(alloc, read_nested(alloc, tables)?)
}

/// The type that a type is nested in, by their rows from 0.
#[tactic(auto, using(crate::proofs::NestedLaws::not_nested, crate::proofs::NestedLaws::nested_past, crate::proofs::NestedLaws::nested_in))]
pub fn enclosing(tables: &Tables<'_>, places: &BTreeMap<u32, u32>, n: u32) -> Option<u32>
    requires row { n + 1 < 2 ^ 32 }
    requires few { row_count tables.now nested_classes < 2 ^ 32 }
    requires places { FindsFirst nat_cmp (nested_types tables.now) places.now }
    ensures { result ≡ enclosing_of tables.now n }
{
    let place = *places.get(&(n + 1))?;
    let row: NestedClassRow = find_row(tables, place + 1)?;
    Some(row.enclosing.saturating_sub(1))
}
