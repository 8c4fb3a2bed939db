//! What the rules of a world's files are read from.

ghost use Rattle.std.specs.Prelude.{◌≡◌, ◌<◌, ◌^◌, IfOk};
ghost use Rattle.class_queries.specs.Numbers.{total_of};
ghost use Rattle.class_table.specs.declared.rows.ClassTable.{ClassTable};
ghost use Rattle.class_table.specs.Whole.{IsTable};
ghost use Rattle.judged_classes.specs.Judged.{IsJudged};
ghost use Rattle.table_minimise.specs.Sources.{AreSources};

use cil_world::World;
use member_references::References;
use member_rules::{Thrown, find_thrown};
use member_search::{MemberIndex, Sort};
use plain_types::fault::NoMemory;
use std::alloc::Global;

/// A world, with the methods of its classes by name, the members that its references mean, and the classes of the exceptions that
/// natives throw.
#[derive(Drop)]
pub struct Sources<'w, 'a> {
    pub world: &'w World<'a>,
    pub methods: MemberIndex<'w, 'a>,
    pub references: &'w References,
    pub thrown: Thrown,
}

/// Reads them of a world of fewer than 2^32 types that keeps the rules of types and members.
pub fn read_sources<'w, 'a>(
    alloc: Global,
    world: &'w World<'a>,
) -> Result<Sources<'w, 'a>, NoMemory>
    requires judged { IsJudged world.now }
    requires few { (t : ClassTable) → IsTable world.now t → total_of t < 2 ^ 32 }
    ensures sources { IfOk result AreSources }
    ensures world { IfOk result (λ sources. sources.world.now ≡ world.now) }
{
    let table = world.classes();
    let methods = MemberIndex::new(alloc, table, Sort::Method)?;
    let thrown = find_thrown(table)?;
    Ok(Sources {
        world,
        methods,
        references: world.references(),
        thrown,
    })
}
