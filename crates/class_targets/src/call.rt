//! What a call of a method finds on an object.

ghost use Rattle.std.specs.Prelude.{◌≡◌, ◌&&◌, Bool, true, false, not, IfOk};
ghost use Rattle.std.specs.Option.{option_map};
ghost use Rattle.machine.specs.Data.{Id};
ghost use Rattle.classes.specs.Classes.{OwnMethod};
ghost use Rattle.classes.specs.Queries.{chain, is_interface, is_or_implements, target, target_by};
ghost use Rattle.member_keys.specs.Seen.{class_seen};
ghost use Rattle.class_table.specs.Seen.{classes_seen};
ghost use Rattle.member_search.specs.declared.sort.Sort.TheVariants.{Method};
ghost use Rattle.class_rules.specs.Rules.{has_body_at};
ghost use Rattle.class_targets.specs.Virtual.{AreApart, IsKeyOf};
ghost use Rattle.class_targets.specs.Bodied.{AreBodied, is_bodied};

use crate::rows::{OwnedMethod, owned_method};
use crate::up::{implementing, overriding};
use class_queries::is_interface;
use class_table::ClassTable;
use member_keys::{ClassId, MemberKey};
use member_search::{MemberIndex, method_key};
use plain_types::fault::NoMemory;
use std::alloc::Global;

/// What a call of an interface's method finds.
fn interface_target<'a>(
    methods: &MemberIndex<'_, 'a>,
    key: &MemberKey<'a>,
    class: ClassId,
    implements: bool,
) -> Option<ClassId>
    requires sort { methods.now.sort ≡ Method }
    requires apart { AreApart (classes_seen methods.now.table) }
    ensures { (m : OwnMethod) (owner : Id) → IsKeyOf key.now m → let cs = classes_seen methods.now.table in option_map class_seen result ≡ target_by cs true (implements && not (is_interface cs (class_seen class))) owner m (chain cs (class_seen class)) }
{
    if implements && !is_interface(methods.table(), class) {
        implementing(methods, key, class)
    } else {
        None
    }
}

/// What a call of a class's method finds.
fn class_target<'a>(
    methods: &MemberIndex<'_, 'a>,
    key: &MemberKey<'a>,
    owned: OwnedMethod<'_, 'a>,
    method: ClassId,
    class: ClassId,
) -> Option<ClassId>
    requires sort { methods.now.sort ≡ Method }
    requires apart { AreApart (classes_seen methods.now.table) }
    ensures { (m : OwnMethod) (implements : Bool) → IsKeyOf key.now m → m.id ≡ class_seen method → m.is_virtual ≡ owned.entry.row.now.is_virtual → let cs = classes_seen methods.now.table in option_map class_seen result ≡ target_by cs false implements (class_seen owned.entry.owner) m (chain cs (class_seen class)) }
{
    if owned.row.is_virtual {
        overriding(methods, key, owned.owner, method, class)
    } else {
        Some(method)
    }
}

/// The method whose body a call of a method runs on an object of a class: of one that isn't virtual itself; of a class's
/// virtual one what overrides it (ECMA-335 I.12.2.1, II.10.3.1); of an interface's one what the class, which isn't an
/// interface and implements that one, has of its name and signature (II.12.2). `None` where there is no such method, or
/// nothing implements it. In the time of the number of superclasses, but for a logarithm.
pub fn target<'a>(
    alloc: Global,
    methods: &MemberIndex<'_, 'a>,
    class: ClassId,
    method: ClassId,
    implements: bool,
) -> Result<Option<ClassId>, NoMemory>
    requires sort { methods.now.sort ≡ Method }
    requires apart { AreApart (classes_seen methods.now.table) }
    requires implements { let cs = classes_seen methods.now.table in (owner : Id) → cs.method_owner (class_seen method) ≡ Some owner → implements ≡ is_or_implements cs (class_seen class) owner }
    ensures { IfOk result (λ found. option_map class_seen found ≡ target (classes_seen methods.now.table) (class_seen class) (class_seen method)) }
{
    match owned_method(methods.table(), method) {
        Some(owned) => {
            let key = method_key(alloc, owned.row)?;
            if is_interface(methods.table(), owned.owner) {
                Ok(interface_target(methods, &key, class, implements))
            } else {
                Ok(class_target(methods, &key, owned, method, class))
            }
        }
        None => Ok(None),
    }
}

/// Whether a class has the method, and it has a body.
fn is_bodied(table: &ClassTable<'_>, method: ClassId) -> bool
    requires { AreBodied (classes_seen table.now) }
    ensures { result ≡ is_bodied (classes_seen table.now) (class_seen method) }
{
    match owned_method(table, method) {
        Some(owned) => !owned.row.is_abstract,
        None => false,
    }
}

/// Whether a call of a method finds a body on an object of a class (ECMA-335 II.12.2).
pub fn has_body_at<'a>(
    alloc: Global,
    methods: &MemberIndex<'_, 'a>,
    class: ClassId,
    method: ClassId,
    implements: bool,
) -> Result<bool, NoMemory>
    requires sort { methods.now.sort ≡ Method }
    requires apart { AreApart (classes_seen methods.now.table) }
    requires bodied { AreBodied (classes_seen methods.now.table) }
    requires implements { let cs = classes_seen methods.now.table in (owner : Id) → cs.method_owner (class_seen method) ≡ Some owner → implements ≡ is_or_implements cs (class_seen class) owner }
    ensures { IfOk result (λ has. (m : OwnMethod) → m.id ≡ class_seen method → has ≡ has_body_at (classes_seen methods.now.table) (class_seen class) m) }
{
    let found = target(alloc, methods, class, method, implements)?;
    match found {
        Some(body) => Ok(is_bodied(methods.table(), body)),
        None => Ok(false),
    }
}
