//! The rows of a world's files as numbers.

ghost use Rattle.std.specs.Prelude.{◌≡◌, ◌<◌, List, IfOk, length};
ghost use Rattle.assemblies.specs.Rows.{Assembly};
ghost use Rattle.world_rows.specs.World.{assemblies_of};
ghost use Rattle.kept_numbers.specs.Numbers.{all_rows};
ghost use Rattle.row_numbers.specs.Tables.{AreCounts};
ghost use Rattle.row_counts.specs.Counts.{AreCountsOf};

use cil_world::World;
use plain_types::fault::NoMemory;
use row_counts::count_rows;
use row_numbers::{PerTable, RowNumbers, Table};
use std::alloc::Global;

/// How many rows each table of each file has.
fn count_tables(alloc: Global, world: &World<'_>) -> Result<Vec<PerTable>, NoMemory>
    ensures { IfOk result (λ counts. AreCountsOf world.now counts.items) }
{
    let mut counts = Vec::new(alloc);
    for file in 0..world.files() {
        counts.push(count_rows(world.tables(file)))?;
    }
    Ok(counts)
}

/// The numbers of the rows of a world's files. There is no room for 2^32 rows.
pub fn number_rows(alloc: Global, world: &World<'_>) -> Result<RowNumbers, NoMemory>
    ensures { IfOk result (λ numbers. AreCounts (assemblies_of world.now) numbers) }
{
    let counts = count_tables(alloc, world)?;
    RowNumbers::new(alloc, counts)
}

/// How many rows so many files have, which are all: the number behind the last row of the last one.
pub fn count_all(numbers: &RowNumbers, files: u16) -> u32
    requires { 0 < files }
    ensures { (ps : List Assembly) → AreCounts ps numbers.now → length ps ≡ files → result ≡ length (all_rows ps) }
{
    let last = numbers.range(files - 1, Table::TypeSpec);
    last.first + last.count
}
