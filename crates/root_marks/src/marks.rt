//! The roots of a world.

ghost use Rattle.std.specs.Prelude.{◌≡◌, ◌<◌, ◌^◌, List, OnOk};
ghost use Rattle.assemblies.specs.Rows.{Assembly};
ghost use Rattle.row_numbers.specs.Tables.{AreCounts};
ghost use Rattle.world_rows.specs.World.{ecma_sources};
ghost use Rattle.class_table.specs.Seen.{classes_seen};
ghost use Rattle.class_queries.specs.Numbers.{total_of};
ghost use Rattle.root_marks.specs.Roots.{marked, root_rows};

use crate::entries::mark_entries;
use crate::named::mark_classes;
use cil_world::World;
use class_table::ClassTable;
use plain_types::fault::NoMemory;
use row_numbers::RowNumbers;

/// Marks the rows that are kept of any program, by their numbers: the methods that the entry tokens of files name, the classes of
/// elements, of arrays and of exceptions, and those of the exceptions that instructions throw. The base library is searched once for
/// each of the 21 classes.
///
/// # Errors
///
/// [`NoMemory`] only where a class is of the file 2^16 or a later one; no world has so many.
pub fn mark_roots(
    world: &World<'_>,
    table: &ClassTable<'_>,
    numbers: &RowNumbers,
    marks: &mut [bool],
) -> Result<(), NoMemory>
    requires table { classes_seen table.now ≡ (ecma_sources world.now).classes }
    requires few { total_of table.now < 2 ^ 32 }
    ensures { OnOk result ((ps : List Assembly) → AreCounts ps numbers.now → marks.new ≡ marked ps (root_rows world.now (ecma_sources world.now).classes) marks.old) }
{
    mark_entries(world, numbers, marks);
    mark_classes(table, numbers, marks)
}
