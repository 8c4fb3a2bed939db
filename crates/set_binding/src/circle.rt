//! The first assembly with a type that goes in a circle (ECMA-335 II.22.37, II.22.23, II.22.32).

ghost use Rattle.std.specs.Prelude.{◌≡◌, ◌<◌, ◌^◌, IfOk, is_some, length};
ghost use Rattle.board_model.specs.Bound.{bound_classes, goes_in_circle, types_at, circle_in, first_circle};
ghost use Rattle.class_table.specs.Seen.{classes_seen};
ghost use Rattle.member_keys.specs.Seen.{class_seen};
ghost use Rattle.set_names.specs.Names.{seen_all};
ghost use Rattle.set_binding.specs.Ways.{AreWays};

use crate::sizes::assembly_count;
use class_queries::{Heights, Way, chain_heights, ends};
use class_table::ClassTable;
use member_keys::ClassId;
use plain_types::fault::NoMemory;
use set_names::Names;
use std::alloc::Global;
use tiny_rows::type_count;

/// Which ways between the classes of a table end.
#[derive(Drop)]
pub struct Ways {
    /// Up the superclasses.
    pub above: Heights,
    /// From an interface to those that it implements.
    pub interfaces: Heights,
    /// Out of nested types.
    pub around: Heights,
}

/// Which ways between the classes of a table end.
fn read_ways(alloc: Global, table: &ClassTable<'_>) -> Result<Ways, NoMemory>
    ensures { IfOk result (AreWays table.now) }
{
    let above = chain_heights(alloc, table, Way::Above)?;
    let interfaces = chain_heights(alloc, table, Way::Interfaces)?;
    let around = chain_heights(alloc, table, Way::Around)?;
    Ok(Ways {
        above,
        interfaces,
        around,
    })
}

/// A class goes in a circle, or a way from it leads to one: of superclasses, of interfaces or of enclosing types.
fn goes_in_circle(table: &ClassTable<'_>, ways: &Ways, class: ClassId) -> bool
    requires { AreWays table.now ways.now }
    ensures { result ≡ goes_in_circle (classes_seen table.now) (class_seen class) }
{
    let above = ends(&ways.above, table, class, table.size);
    if !above {
        return true;
    }
    let interfaces = ends(&ways.interfaces, table, class, table.size);
    if !interfaces {
        return true;
    }
    let around = ends(&ways.around, table, class, table.size);
    !around
}

/// How many types an image has.
fn count(names: &Names<'_, '_>, file: u32) -> u32
    ensures { result ≡ types_at (seen_all names.now) file }
{
    match names.image(file) {
        Some(image) => u32::from(type_count(image)),
        None => 0,
    }
}

/// A type of an assembly goes in a circle.
fn has_circle(names: &Names<'_, '_>, table: &ClassTable<'_>, ways: &Ways, file: u32) -> bool
    requires table { classes_seen table.now ≡ bound_classes (seen_all names.now) }
    requires ways { AreWays table.now ways.now }
    ensures { result ≡ is_some (circle_in (seen_all names.now) file) }
{
    for row in 0..count(names, file) {
        if goes_in_circle(table, ways, ClassId { file, row }) {
            return true;
        }
    }
    false
}

/// The first assembly with a type that goes in a circle.
fn circle_among(names: &Names<'_, '_>, table: &ClassTable<'_>, ways: &Ways) -> Option<u32>
    requires few { length names.now < 2 ^ 32 }
    requires table { classes_seen table.now ≡ bound_classes (seen_all names.now) }
    requires ways { AreWays table.now ways.now }
    ensures { result ≡ first_circle (seen_all names.now) }
{
    for file in 0..assembly_count(names) {
        if has_circle(names, table, ways, file) {
            return Some(file);
        }
    }
    None
}

/// The assembly of the first type that goes in a circle, or from which a way leads to one.
pub fn first_circle(
    alloc: Global,
    names: &Names<'_, '_>,
    table: &ClassTable<'_>,
) -> Result<Option<u32>, NoMemory>
    requires few { length names.now < 2 ^ 32 }
    requires table { classes_seen table.now ≡ bound_classes (seen_all names.now) }
    ensures { IfOk result (λ found. found ≡ first_circle (seen_all names.now)) }
{
    let ways = read_ways(alloc, table)?;
    Ok(circle_among(names, table, &ways))
}
