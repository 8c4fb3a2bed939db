//! The rules of all files' rows.

ghost use Rattle.std.specs.Prelude.{◌≡◌, ◌<◌, ◌^◌, IfOk, OnOk, length};
ghost use Rattle.class_queries.specs.Numbers.{total_of};
ghost use Rattle.class_table.specs.declared.rows.ClassTable.{ClassTable};
ghost use Rattle.class_table.specs.Whole.{IsTable};
ghost use Rattle.judged_classes.specs.Judged.{IsJudged};
ghost use Rattle.table_minimise.specs.FileLinks.{AddsFiles, HasRules};
ghost use Rattle.table_minimise.specs.Sources.{AreSources};

use crate::file::add_file;
use crate::sources::{Sources, read_sources};
use cil_world::World;
use plain_types::fault::NoMemory;
use row_numbers::RowNumbers;
use row_rules::RowRules;
use std::alloc::Global;

/// Adds the rules of the rows of all files.
fn add_files(alloc: Global, rules: &mut RowRules, sources: &Sources<'_, '_>) -> Result<(), NoMemory>
    requires { AreSources sources.now }
    ensures { OnOk result (AddsFiles sources.now.world.now sources.now.methods.table (length sources.now.world.now) rules.old rules.new) }
{
    for file in 0..sources.world.files() {
        add_file(alloc, rules, sources, file)?;
    }
    Ok(())
}

/// The rules of the rows of all files of a world, over their numbers.
pub fn find_rules(
    alloc: Global,
    world: &World<'_>,
    numbers: RowNumbers,
) -> Result<RowRules, NoMemory>
    requires judged { IsJudged world.now }
    requires few { (t : ClassTable) → IsTable world.now t → total_of t < 2 ^ 32 }
    ensures { IfOk result (HasRules world.now numbers) }
{
    let sources = read_sources(alloc, world)?;
    let mut rules = RowRules::new(alloc, numbers);
    add_files(alloc, &mut rules, &sources)?;
    Ok(rules)
}
