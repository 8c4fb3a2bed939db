//! The way up the superclasses of an object's class.

ghost use Rattle.std.specs.Prelude.{◌≡◌, unwrap_or};
ghost use Rattle.std.specs.Option.{option_map};
ghost use Rattle.machine.specs.Data.{id_eq};
ghost use Rattle.board_ids.specs.Ids.{id_of};
ghost use Rattle.classes.specs.Classes.{OwnMethod};
ghost use Rattle.classes.specs.Queries.{chain, first_some, own_virtual, search_body, slot_search};
ghost use Rattle.member_keys.specs.Seen.{class_seen};
ghost use Rattle.class_table.specs.Seen.{classes_seen};
ghost use Rattle.class_targets.specs.Down.{decided};
ghost use Rattle.tiny_types.specs.Named.{IsRowOf, slot_seen};
ghost use Rattle.tiny_types.specs.Small.{IsSmall};

use crate::own::{Virtual, own_virtual};
use board_types::board::TypeAt;
use class_queries::superclass;
use class_table::{ClassTable, MethodRow};
use member_keys::ClassId;

/// What the classes so far decide, where the one above them has a virtual method: one with a slot of its own ends the
/// search above these classes, so that they decide nothing; another one is the body, unless a class below has one.
fn decide(below: Option<TypeAt>, own: Option<Virtual>) -> Option<TypeAt>
    ensures { option_map id_of result ≡ decided (option_map slot_seen own) (option_map id_of below) }
{
    match own {
        None => below,
        Some(own) if own.is_newslot => None,
        Some(own) => Some(below.unwrap_or(own.method)),
    }
}

/// Whether both are one class.
#[tactic(auto, using(member_keys::proofs::KeyLaws::same_class))]
pub fn is_same(class: ClassId, other: ClassId) -> bool
    ensures { result ≡ id_eq (class_seen class) (class_seen other) }
{
    class == other
}

/// The body where the search begins with a method.
fn begin(below: Option<TypeAt>, method: TypeAt) -> TypeAt
    ensures { id_of result ≡ unwrap_or (option_map id_of below) (id_of method) }
{
    below.unwrap_or(method)
}

/// The body that stands in a method's slot at a class: the method itself, or what overrides it on the way from its class
/// down to this one, until a slot of its own ends the search (ECMA-335 II.10.3.1). `None` where the method's class isn't
/// above this one.
pub fn overriding(
    table: &ClassTable<'_>,
    wanted: &MethodRow<'_>,
    owner: ClassId,
    method: TypeAt,
    class: ClassId,
) -> Option<TypeAt>
    requires { IsSmall table.now }
    ensures { (m : OwnMethod) → IsRowOf wanted.now m → m.id ≡ id_of method → let cs = classes_seen table.now in option_map id_of result ≡ option_map search_body (slot_search cs (class_seen owner) m (chain cs (class_seen class))) }
{
    let mut class = class;
    let mut decided = None;
    let mut left = table.size;
    'up: loop {
        if is_same(class, owner) {
            return Some(begin(decided, method));
        }
        if left == 0 {
            return None;
        }
        decided = decide(decided, own_virtual(table, class, wanted));
        class = superclass(table, class)?;
        left -= 1;
    }
}

/// The first virtual method of the name and signature from a class upwards (ECMA-335 II.12.2).
pub fn implementing(
    table: &ClassTable<'_>,
    wanted: &MethodRow<'_>,
    class: ClassId,
) -> Option<TypeAt>
    requires { IsSmall table.now }
    ensures { (m : OwnMethod) → IsRowOf wanted.now m → let cs = classes_seen table.now in option_map id_of result ≡ option_map (λ x. x.id) (first_some (own_virtual cs m) (chain cs (class_seen class))) }
{
    let mut class = class;
    let mut left = table.size;
    'up: loop {
        if let Some(found) = own_virtual(table, class, wanted) {
            return Some(found.method);
        }
        if left == 0 {
            return None;
        }
        class = superclass(table, class)?;
        left -= 1;
    }
}
