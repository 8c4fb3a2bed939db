//! What a call of a method finds on an object.

ghost use Rattle.std.specs.Prelude.{◌≡◌, ◌&&◌, Bool, true, false, not};
ghost use Rattle.std.specs.Option.{option_map};
ghost use Rattle.machine.specs.Data.{Id};
ghost use Rattle.classes.specs.Classes.{OwnMethod};
ghost use Rattle.classes.specs.Queries.{chain, is_interface, target, target_by};
ghost use Rattle.board_ids.specs.Ids.{id_of};
ghost use Rattle.member_keys.specs.Seen.{class_seen};
ghost use Rattle.class_table.specs.Seen.{classes_seen};
ghost use Rattle.tiny_types.specs.Named.{IsRowOf};
ghost use Rattle.tiny_types.specs.Small.{IsSmall};

use crate::bound::BoundTypes;
use crate::ids::class_id;
use crate::up::{implementing, overriding};
use board_types::board::TypeAt;
use class_queries::is_interface;
use class_table::{ClassTable, MethodRow};
use class_targets::{OwnedMethod, owned_method};
use member_keys::ClassId;

/// What a call of an interface's method finds.
fn interface_target(
    table: &ClassTable<'_>,
    wanted: &MethodRow<'_>,
    class: ClassId,
    implements: bool,
) -> Option<TypeAt>
    requires { IsSmall table.now }
    ensures { (m : OwnMethod) (owner : Id) → IsRowOf wanted.now m → let cs = classes_seen table.now in option_map id_of result ≡ target_by cs true (implements && not (is_interface cs (class_seen class))) owner m (chain cs (class_seen class)) }
{
    if implements && !is_interface(table, class) {
        implementing(table, wanted, class)
    } else {
        None
    }
}

/// What a call of a class's method finds.
fn class_target(
    table: &ClassTable<'_>,
    owned: OwnedMethod<'_, '_>,
    method: TypeAt,
    class: ClassId,
) -> Option<TypeAt>
    requires { IsSmall table.now }
    ensures { (m : OwnMethod) (implements : Bool) → IsRowOf owned.entry.row.now m → m.id ≡ id_of method → m.is_virtual ≡ owned.entry.row.now.is_virtual → let cs = classes_seen table.now in option_map id_of result ≡ target_by cs false implements (class_seen owned.entry.owner) m (chain cs (class_seen class)) }
{
    if owned.row.is_virtual {
        overriding(table, owned.row, owned.owner, method, class)
    } else {
        Some(method)
    }
}

/// The method whose body a call of a method runs on an object of a class: of one that isn't virtual itself; of a class's
/// virtual one what overrides it (ECMA-335 I.12.2.1, II.10.3.1); of an interface's one what the class, which isn't an
/// interface and implements that one, has of its name and signature (II.12.2). `None` where there is no such method, or
/// nothing implements it. In the time of the methods of the superclasses.
pub fn target(types: &BoundTypes<'_, '_>, class: TypeAt, method: TypeAt) -> Option<TypeAt>
    ensures { option_map id_of result ≡ target (classes_seen types.now) (id_of class) (id_of method) }
{
    let table = types.table();
    let class = class_id(class);
    let found = class_id(method);
    let owned = owned_method(table, found)?;
    if is_interface(table, owned.owner) {
        let implements = types.is_or_implements(class, owned.owner);
        interface_target(table, owned.row, class, implements)
    } else {
        class_target(table, owned, method, class)
    }
}
