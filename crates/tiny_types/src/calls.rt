//! What steps, casts and calls ask of the types of a bound set.

ghost use Rattle.std.specs.Prelude.{◌≡◌, length};
ghost use Rattle.classes.specs.Queries.{instance_fields, is_sub};
ghost use Rattle.class_table.specs.Seen.{classes_seen};
ghost use Rattle.board_ids.specs.Ids.{id_of};

use crate::bound::BoundTypes;
use crate::ids::class_id;
use board_types::board::TypeAt;
use class_queries::is_sub;

/// Whether a class is the other one, or below it (ECMA-335 I.8.9.9). In the time of the number of superclasses.
pub fn sub(types: &BoundTypes<'_, '_>, a: TypeAt, b: TypeAt) -> bool
    ensures { result ≡ is_sub (classes_seen types.now) (id_of a) (id_of b) }
{
    is_sub(types.table(), class_id(a), class_id(b))
}

/// How many instance fields objects of a class have, with those of its superclasses (ECMA-335 I.8.10.1); 0 where there is no such
/// class. In constant time.
pub fn field_count(types: &BoundTypes<'_, '_>, class: TypeAt) -> u32
    ensures { result ≡ length (instance_fields (classes_seen types.now) (id_of class)) }
{
    types.count_fields(class_id(class))
}
