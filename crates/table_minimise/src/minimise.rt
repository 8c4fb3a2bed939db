//! The rows that are kept.

ghost use Rattle.std.specs.Prelude.{◌≡◌, ◌<◌, ◌^◌, false, IfOk, length, replicate};
ghost use Rattle.class_rules.specs.Base.{IsBase};
ghost use Rattle.class_queries.specs.Numbers.{total_of};
ghost use Rattle.class_table.specs.declared.rows.ClassTable.{ClassTable};
ghost use Rattle.class_table.specs.Whole.{IsTable};
ghost use Rattle.world_rows.specs.World.{assemblies_of, ecma_sources, rows_alone, size_of};
ghost use Rattle.judged_classes.specs.Judged.{IsJudged};
ghost use Rattle.row_closure.specs.Closure.{holds, AreWithin, IsClosure};
ghost use Rattle.kept_numbers.specs.Numbers.{all_rows};
ghost use Rattle.row_numbers.specs.Tables.{AreCounts};
ghost use Rattle.root_marks.specs.Are.{EntriesStand, AreRoots};
ghost use Rattle.table_minimise.specs.Needed.{AreNeeded};

use crate::files::find_rules;
use crate::numbers::{count_all, number_rows};
use cil_world::World;
use kept_marks::Kept;
use plain_types::fault::NoMemory;
use root_marks::mark_roots;
use row_closure::{Rule, close};
use row_numbers::RowNumbers;
use std::alloc::Global;

/// No mark yet, for each of so many rows.
fn no_marks(alloc: Global, count: u32) -> Result<Vec<bool>, NoMemory>
    ensures { IfOk result (λ marks. marks.items ≡ replicate count false) }
{
    Ok(vec![in alloc; false; count as usize]?)
}

/// A mark for each of so many rows, which are all: those of the rows that are kept of any program.
fn begin_marks(
    alloc: Global,
    world: &World<'_>,
    numbers: &RowNumbers,
    count: u32,
) -> Result<Vec<bool>, NoMemory>
    requires counts { AreCounts (assemblies_of world.now) numbers.now }
    requires all { count ≡ length (all_rows (assemblies_of world.now)) }
    requires few { (t : ClassTable) → IsTable world.now t → total_of t < 2 ^ 32 }
    ensures all { IfOk result (λ marks. length marks.items ≡ count) }
    ensures roots { IfOk result (λ marks. EntriesStand (assemblies_of world.now) → AreRoots (size_of (rows_alone world.now)) (assemblies_of world.now) (holds marks.items)) }
{
    let mut marks = no_marks(alloc, count)?;
    mark_roots(world, world.classes(), numbers, marks.as_mut_slice())?;
    Ok(marks)
}

/// The marks of rows with all that the rules give of them.
fn close_marks(alloc: Global, start: Vec<bool>, rules: &[Rule]) -> Result<Vec<bool>, NoMemory>
    requires few { length start.items < 2 ^ 32 }
    requires within { AreWithin (length start.items) rules.now }
    ensures all { IfOk result (λ marks. length marks.items ≡ length start.items) }
    ensures closure { IfOk result (λ marks. IsClosure rules.now (holds start.items) (holds marks.items)) }
{
    let mut marks = start;
    close(alloc, marks.as_mut_slice(), rules)?;
    Ok(marks)
}

/// The rows of a world's files that are needed. It is a world that keeps the rules of types and members, over the base library. From
/// the entry method of each file behind the base library, and the classes that the machine itself uses, all rows are kept that kept
/// rows ask for: what they name, a member's type, a reference's definition, a type's instance fields and initialiser (ECMA-335
/// II.10.5.3), the classes of the exceptions that a native throws, the methods that take the slots of kept ones in kept types
/// (II.10.3.1), and those that fill the methods of interfaces (II.12.2); and no others. In the time of the rows, the code, and what
/// each class reaches.
///
/// # Errors
///
/// [`NoMemory`] also where the files have 2^32 rows or rules; no files of a device have so many.
pub fn needed(alloc: Global, world: &World<'_>) -> Result<Kept, NoMemory>
    requires judged { IsJudged world.now }
    requires base { IsBase (ecma_sources world.now).classes }
    ensures counts { IfOk result (λ kept. AreCounts (assemblies_of world.now) kept.counts) }
    ensures needed { IfOk result (AreNeeded world.now) }
{
    let numbers = number_rows(alloc, world)?;
    let count = count_all(&numbers, world.files());
    let start = begin_marks(alloc, world, &numbers, count)?;
    let found = find_rules(alloc, world, numbers)?;
    let marks = close_marks(alloc, start, found.rules.as_slice())?;
    Kept::new(alloc, found.numbers, marks)
}
