//! Which class is the other one, stands below it or implements it.

ghost use Rattle.std.specs.Prelude.{◌≡◌, ◌<◌, ◌^◌, IfOk};
ghost use Rattle.std.specs.List.{list_any};
ghost use Rattle.machine.specs.Data.{id_eq};
ghost use Rattle.classes.specs.Queries.{is_or_implements};
ghost use Rattle.member_keys.specs.Seen.{class_seen};
ghost use Rattle.class_table.specs.Seen.{classes_seen};
ghost use Rattle.class_queries.specs.Numbers.{total_of};
ghost use Rattle.class_order.specs.Order.{InOrder};
ghost use Rattle.class_order.specs.Types.{AreOrdered};

use crate::basic::{BasicClasses, find_basic};
use crate::chains::is_same;
use class_queries::{is_interface, is_sub};
use class_reach::reached;
use class_table::ClassTable;
use member_keys::ClassId;
use plain_types::fault::NoMemory;
use std::alloc::Global;

/// A table, and the base library's classes in it.
#[derive(Drop)]
pub struct Order<'t, 'a> {
    pub table: &'t ClassTable<'a>,
    pub basic: BasicClasses,
}

/// The order of a table of fewer than 2^32 classes, whose chains of superclasses end.
pub fn order_of<'t, 'a>(table: &'t ClassTable<'a>) -> Order<'t, 'a>
    requires few { total_of table.now < 2 ^ 32 }
    requires order { InOrder (classes_seen table.now) }
    ensures table { result.table.now ≡ table.now }
    ensures ordered { AreOrdered result }
{
    Order {
        table,
        basic: find_basic(table),
    }
}

/// Whether a class is among some.
fn is_among(classes: &[ClassId], wanted: ClassId) -> bool
    ensures { result ≡ list_any (λ c. id_eq (class_seen wanted) (class_seen c)) classes.now }
{
    for class in classes {
        if is_same(wanted, *class) {
            return true;
        }
    }
    false
}

/// Whether a class is the other one, stands below it or implements it (ECMA-335 I.8.7), in a table whose chains of superclasses end.
/// Of a class in the time of the chain, of an interface in that of all that is reached.
pub fn is_or_implements(
    alloc: Global,
    table: &ClassTable<'_>,
    class: ClassId,
    other: ClassId,
) -> Result<bool, NoMemory>
    requires { InOrder (classes_seen table.now) }
    ensures { IfOk result (λ answer. answer ≡ is_or_implements (classes_seen table.now) (class_seen class) (class_seen other)) }
{
    if is_interface(table, other) {
        let classes = reached(alloc, table, class)?;
        Ok(is_among(&classes, other))
    } else {
        Ok(is_sub(table, class, other))
    }
}
