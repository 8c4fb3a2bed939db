//! The superclasses of a class.

ghost use Rattle.std.specs.Prelude.{◌≡◌, IfOk, map};
ghost use Rattle.classes.specs.Queries.{chain};
ghost use Rattle.member_keys.specs.Seen.{class_seen};
ghost use Rattle.class_table.specs.Seen.{classes_seen};

use class_queries::superclass;
use class_table::ClassTable;
use member_keys::ClassId;
use plain_types::fault::NoMemory;
use std::alloc::Global;

/// The class, its superclass, that one's, and so on. In a circle, which the rules of classes refuse, it ends behind one class more
/// than the table's size.
pub fn superclass_chain(
    alloc: Global,
    table: &ClassTable<'_>,
    class: ClassId,
) -> Result<Vec<ClassId>, NoMemory>
    ensures { IfOk result (λ classes. map class_seen classes.items ≡ chain (classes_seen table.now) (class_seen class)) }
{
    let mut class = class;
    let mut classes = Vec::new(alloc);
    for _step in 0..table.size {
        classes.push(class)?;
        match superclass(table, class) {
            Some(next) => class = next,
            None => return Ok(classes),
        }
    }
    classes.push(class)?;
    Ok(classes)
}
