//! Which ways from a class end.

ghost use Rattle.std.specs.Prelude.{◌≡◌, None, IfOk, slice_get, unwrap_or};
ghost use Rattle.classes.specs.Queries.{ends};
ghost use Rattle.member_keys.specs.Seen.{class_seen};
ghost use Rattle.class_table.specs.Seen.{classes_seen};
ghost use Rattle.class_queries.specs.Chains.{nexts};
ghost use Rattle.class_queries.specs.Numbers.{AreNumbers};
ghost use Rattle.class_queries.specs.Heights.{AreHeights};

use crate::graph::{Graph, list_classes};
use crate::numbers::{Numbers, number, number_classes};
use class_table::ClassTable;
use member_keys::ClassId;
use plain_types::fault::NoMemory;
use std::alloc::Global;

/// A way from class to class.
#[derive(Clone, Copy, Debug, PartialEq, Eq)]
pub enum Way {
    /// Up the superclasses.
    Above,
    /// From an interface to those that it implements.
    Interfaces,
    /// Out of nested types.
    Around,
}

/// How many classes the longest way from each class has.
#[derive(Debug, Drop)]
pub struct Heights {
    pub numbers: Numbers,
    pub of: Vec<Option<u32>>,
}

/// The heights of a table's classes in one of the ways, in the time of the number of classes and of what they name.
pub fn chain_heights(alloc: Global, table: &ClassTable<'_>, way: Way) -> Result<Heights, NoMemory>
    ensures { IfOk result (λ heights. AreHeights table.now way heights) }
{
    let numbers = number_classes(alloc, table)?;
    let classes = list_classes(alloc, table, &numbers)?;
    let of = ways::heights(
        alloc,
        &Graph {
            table,
            numbers: &numbers,
            classes: &classes,
            way,
        },
    )?;
    Ok(Heights { numbers, of })
}

/// Whether each way from a class ends within so many classes.
pub fn ends(heights: &Heights, table: &ClassTable<'_>, class: ClassId, most: u64) -> bool
    requires { AreNumbers table.now heights.now.numbers }
    ensures { (way : Way) → AreHeights table.now way heights.now → result ≡ ends most (nexts way (classes_seen table.now)) (class_seen class) }
{
    match height_at(&heights.of, number(&heights.numbers, table, class)) {
        Some(height) => u64::from(height) <= most,
        None => false,
    }
}

/// The height of a number, if it has one.
fn height_at(heights: &[Option<u32>], number: u32) -> Option<u32>
    ensures { result ≡ unwrap_or (slice_get heights.now number) None }
{
    heights.get(number as usize).copied().unwrap_or(None)
}
