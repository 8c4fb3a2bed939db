//! The ways from a class by superclasses and interfaces, a step at a time.

ghost use Rattle.std.specs.Prelude.{◌≡◌, ℕ, ◌≤◌, ◌-◌, IfOk, OnOk, Some, drop, length, map, take, count_by, slice_get};
ghost use Rattle.std.specs.List.{list_any};
ghost use Rattle.std.specs.Option.{option_map};
ghost use Rattle.machine.specs.Data.{Id, id_eq};
ghost use Rattle.classes.specs.Queries.{reaches, parents, superclass_of};
ghost use Rattle.member_keys.specs.Seen.{class_seen};
ghost use Rattle.class_table.specs.Seen.{classes_seen};
ghost use Rattle.class_reach.specs.Found.{IsFound, Adds};
ghost use Rattle.class_reach.specs.Levels.{all_nexts};
ghost use Rattle.class_reach.specs.Until.{until, parents_until};

use crate::found::{Found, add_all, add_some, begin};
use class_queries::{interfaces, superclass};
use class_table::ClassTable;
use member_keys::ClassId;
use plain_types::fault::NoMemory;
use std::alloc::Global;

/// Whether both are one class.
#[tactic(auto, using(member_keys::proofs::KeyLaws::same_class))]
fn is_same(class: ClassId, other: ClassId) -> bool
    ensures { result ≡ id_eq (class_seen class) (class_seen other) }
{
    class == other
}

/// The superclass of a class, unless it is the one to before which the steps go.
fn superclass_until(table: &ClassTable<'_>, class: ClassId, top: Option<ClassId>) -> Option<ClassId>
    ensures { option_map class_seen result ≡ until (option_map class_seen top) (superclass_of (classes_seen table.now) (class_seen class)) }
{
    let above = superclass(table, class)?;
    match top {
        Some(top) if is_same(above, top) => None,
        _ => Some(above),
    }
}

/// Adds where a step leads from a class: to its superclass, unless it is the one to before which the steps go, and to its
/// interfaces.
fn add_parents(
    found: &mut Found,
    table: &ClassTable<'_>,
    class: ClassId,
    top: Option<ClassId>,
) -> Result<(), NoMemory>
    requires { IsFound found.old }
    ensures { OnOk result (Adds (parents_until (classes_seen table.now) (option_map class_seen top) (class_seen class)) found.old found.new) }
{
    add_some(found, superclass_until(table, class, top))?;
    add_all(found, interfaces(table, class))?;
    Ok(())
}

/// Adds what the classes from one place to another one lead to.
fn add_level(
    found: &mut Found,
    table: &ClassTable<'_>,
    top: Option<ClassId>,
    start: usize,
    end: usize,
) -> Result<(), NoMemory>
    requires found { IsFound found.old }
    requires start { start ≤ end }
    requires end { end ≤ length found.old.items.items }
    ensures { OnOk result (Adds (all_nexts (parents_until (classes_seen table.now) (option_map class_seen top)) (take (end - start) (drop start found.old.items.items))) found.old found.new) }
{
    for place in start..end {
        let class = found.items[place];
        add_parents(found, table, class, top)?;
    }
    Ok(())
}

/// The classes and interfaces that a class reaches by superclasses, up to before one of them, and by interfaces, in at most as
/// many steps as the table's size, which counts all its types: itself first, each once (ECMA-335 II.10.1.3, II.12.2). Without
/// such an end all are reached. In the time of what these classes name, but for a logarithm; ways that go in a circle are
/// walked once.
pub fn reached_until(
    alloc: Global,
    table: &ClassTable<'_>,
    class: ClassId,
    top: Option<ClassId>,
) -> Result<Vec<ClassId>, NoMemory>
    ensures first { IfOk result (λ classes. slice_get classes.items 0 ≡ Some class) }
    ensures once { IfOk result (λ classes. (d : Id) → count_by (id_eq d) (map class_seen classes.items) ≤ 1) }
    ensures reaches { IfOk result (λ classes. let cs = classes_seen table.now in (d : Id) → list_any (id_eq d) (map class_seen classes.items) ≡ reaches cs.size (parents_until cs (option_map class_seen top)) (class_seen class) d) }
{
    let mut found = begin(alloc, class)?;
    let mut start = 0;
    for _round in 0..table.size {
        let end = found.items.len();
        if start == end {
            return Ok(found.items);
        }
        add_level(&mut found, table, top, start, end)?;
        start = end;
    }
    Ok(found.items)
}

/// The classes and interfaces that a class reaches by superclasses and interfaces in at most as many steps as the table's
/// size, which counts all its types: itself first, each once (ECMA-335 II.10.1.3, II.12.2). In the time of what these
/// classes name, but for a logarithm; ways that go in a circle are walked once.
pub fn reached(
    alloc: Global,
    table: &ClassTable<'_>,
    class: ClassId,
) -> Result<Vec<ClassId>, NoMemory>
    ensures first { IfOk result (λ classes. slice_get classes.items 0 ≡ Some class) }
    ensures once { IfOk result (λ classes. (d : Id) → count_by (id_eq d) (map class_seen classes.items) ≤ 1) }
    ensures reaches { IfOk result (λ classes. let cs = classes_seen table.now in (d : Id) → list_any (id_eq d) (map class_seen classes.items) ≡ reaches cs.size (parents cs) (class_seen class) d) }
{
    reached_until(alloc, table, class, None)
}
