//! The virtual method of a name and a signature that a class itself has.

ghost use Rattle.std.specs.Prelude.{◌≡◌};
ghost use Rattle.std.specs.Option.{option_map};
ghost use Rattle.classes.specs.Classes.{OwnMethod};
ghost use Rattle.classes.specs.Queries.{own_virtual};
ghost use Rattle.member_keys.specs.Seen.{class_seen};
ghost use Rattle.class_table.specs.Seen.{classes_seen};
ghost use Rattle.member_search.specs.declared.sort.Sort.TheVariants.{Method};
ghost use Rattle.class_targets.specs.Virtual.{AreApart, IsKeyOf, slot_seen, slot_of};

use crate::rows::find_method;
use member_keys::{ClassId, MemberKey};
use member_search::MemberIndex;

/// A virtual method, and whether it begins a slot of its own (ECMA-335 II.10.3.1).
#[derive(Clone, Copy, Debug)]
pub struct Virtual {
    pub method: ClassId,
    pub is_newslot: bool,
}

/// The virtual method of the key's name and signature that a class has.
pub fn own_virtual<'a>(
    methods: &MemberIndex<'_, 'a>,
    key: &MemberKey<'a>,
    class: ClassId,
) -> Option<Virtual>
    requires sort { methods.now.sort ≡ Method }
    requires apart { AreApart (classes_seen methods.now.table) }
    ensures { (m : OwnMethod) → IsKeyOf key.now m → option_map slot_seen result ≡ option_map slot_of (own_virtual (classes_seen methods.now.table) m (class_seen class)) }
{
    let method = methods.find_own(class, key)?;
    let row = find_method(methods.table(), method)?;
    if row.is_virtual {
        Some(Virtual {
            method,
            is_newslot: row.is_newslot,
        })
    } else {
        None
    }
}
