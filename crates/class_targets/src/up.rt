//! The way up the superclasses of an object's class.

ghost use Rattle.std.specs.Prelude.{◌≡◌, unwrap_or};
ghost use Rattle.std.specs.Option.{option_map};
ghost use Rattle.machine.specs.Data.{id_eq};
ghost use Rattle.classes.specs.Classes.{OwnMethod};
ghost use Rattle.classes.specs.Queries.{chain, first_some, own_virtual, search_body, slot_search};
ghost use Rattle.member_keys.specs.Seen.{class_seen};
ghost use Rattle.class_table.specs.Seen.{classes_seen};
ghost use Rattle.member_search.specs.declared.sort.Sort.TheVariants.{Method};
ghost use Rattle.class_targets.specs.Virtual.{AreApart, IsKeyOf, slot_seen};
ghost use Rattle.class_targets.specs.Down.{decided};

use crate::own::{Virtual, own_virtual};
use class_queries::superclass;
use member_keys::{ClassId, MemberKey};
use member_search::MemberIndex;

/// What the classes so far decide, where the one above them has a virtual method: one with a slot of its own ends the
/// search above these classes, so that they decide nothing; another one is the body, unless a class below has one.
fn decide(below: Option<ClassId>, own: Option<Virtual>) -> Option<ClassId>
    ensures { option_map class_seen result ≡ decided (option_map slot_seen own) (option_map class_seen below) }
{
    match own {
        None => below,
        Some(own) if own.is_newslot => None,
        Some(own) => match below {
            None => Some(own.method),
            Some(body) => Some(body),
        },
    }
}

/// The body where the search begins with a method.
fn begin(below: Option<ClassId>, method: ClassId) -> ClassId
    ensures { class_seen result ≡ unwrap_or (option_map class_seen below) (class_seen method) }
{
    match below {
        Some(body) => body,
        None => method,
    }
}

/// Whether both are one class.
#[tactic(auto, using(member_keys::proofs::KeyLaws::same_class))]
fn is_same(class: ClassId, other: ClassId) -> bool
    ensures { result ≡ id_eq (class_seen class) (class_seen other) }
{
    class == other
}

/// The body that stands in a method's slot at a class: the method itself, or what overrides it on the way from its class
/// down to this one, until a slot of its own ends the search (ECMA-335 II.10.3.1). `None` where the method's class isn't
/// above this one.
pub fn overriding<'a>(
    methods: &MemberIndex<'_, 'a>,
    key: &MemberKey<'a>,
    owner: ClassId,
    method: ClassId,
    class: ClassId,
) -> Option<ClassId>
    requires sort { methods.now.sort ≡ Method }
    requires apart { AreApart (classes_seen methods.now.table) }
    ensures { (m : OwnMethod) → IsKeyOf key.now m → m.id ≡ class_seen method → let cs = classes_seen methods.now.table in option_map class_seen result ≡ option_map search_body (slot_search cs (class_seen owner) m (chain cs (class_seen class))) }
{
    let mut class = class;
    let mut decided = None;
    let mut left = methods.table().size;
    'up: loop {
        if is_same(class, owner) {
            return Some(begin(decided, method));
        }
        if left == 0 {
            return None;
        }
        decided = decide(decided, own_virtual(methods, key, class));
        class = superclass(methods.table(), class)?;
        left -= 1;
    }
}

/// The first virtual method of the key's name and signature from a class upwards (ECMA-335 II.12.2).
pub fn implementing<'a>(
    methods: &MemberIndex<'_, 'a>,
    key: &MemberKey<'a>,
    class: ClassId,
) -> Option<ClassId>
    requires sort { methods.now.sort ≡ Method }
    requires apart { AreApart (classes_seen methods.now.table) }
    ensures { (m : OwnMethod) → IsKeyOf key.now m → let cs = classes_seen methods.now.table in option_map class_seen result ≡ option_map (λ x. x.id) (first_some (own_virtual cs m) (chain cs (class_seen class))) }
{
    let mut class = class;
    let mut left = methods.table().size;
    'up: loop {
        if let Some(found) = own_virtual(methods, key, class) {
            return Some(found.method);
        }
        if left == 0 {
            return None;
        }
        class = superclass(methods.table(), class)?;
        left -= 1;
    }
}
