//! The slots that a class's own methods take (ECMA-335 II.10.3.1).

ghost use Rattle.std.specs.Prelude.{◌≡◌, ℕ, ◌&&◌, not, Some, IfOk, OnOk};
ghost use Rattle.std.specs.List.{flat_map};
ghost use Rattle.std.specs.Option.{option_map};
ghost use Rattle.classes.specs.Classes.{OwnMethod};
ghost use Rattle.classes.specs.Queries.{methods_of, nearest};
ghost use Rattle.member_keys.specs.Seen.{class_seen};
ghost use Rattle.member_search.specs.declared.sort.Sort.TheVariants.{Method};
ghost use Rattle.class_table.specs.Seen.{classes_seen, method_row, method_seen};
ghost use Rattle.class_targets.specs.Virtual.{AreApart, IsKeyOf};
ghost use Rattle.row_rules.specs.Links.{Adds};
ghost use Rattle.slot_links.specs.Slots.{for_some, takes, overrides};

use crate::places::{method_place, type_place};
use class_queries::superclass;
use class_slots::own_rows;
use class_table::MethodRow;
use class_targets::{find_method, implementing};
use member_keys::{ClassId, MemberKey};
use member_search::{MemberIndex, method_key};
use plain_types::fault::NoMemory;
use row_rules::RowRules;
use std::alloc::Global;

/// Adds that a method of a class takes the slot of another one.
fn add_takes(
    rules: &mut RowRules,
    class: ClassId,
    method: ClassId,
    inherited: ClassId,
) -> Result<(), NoMemory>
    ensures { OnOk result (Adds (takes (class_seen class) (class_seen method) (class_seen inherited)) rules.old rules.new) }
{
    let holder = type_place(class)?;
    let taker = method_place(method)?;
    let taken = method_place(inherited)?;
    rules.add(holder, taken, taker)?;
    rules.keep(taker, taken)
}

/// The nearest virtual method of the key's name and signature above a class.
fn nearest<'a>(
    methods: &MemberIndex<'_, 'a>,
    key: &MemberKey<'a>,
    class: ClassId,
) -> Option<ClassId>
    requires sort { methods.now.sort ≡ Method }
    requires apart { AreApart (classes_seen methods.now.table) }
    ensures { (m : OwnMethod) → IsKeyOf key.now m → option_map class_seen result ≡ option_map (λ x. x.id) (nearest (classes_seen methods.now.table) m (class_seen class)) }
{
    let above = superclass(methods.table(), class)?;
    implementing(methods, key, above)
}

/// The nearest virtual method of a method's name and signature above a class.
fn find_nearest<'a>(
    alloc: Global,
    methods: &MemberIndex<'_, 'a>,
    class: ClassId,
    row: &MethodRow<'a>,
) -> Result<Option<ClassId>, NoMemory>
    requires sort { methods.now.sort ≡ Method }
    requires apart { AreApart (classes_seen methods.now.table) }
    ensures { IfOk result (λ found. (file n : ℕ) → option_map class_seen found ≡ option_map (λ x. x.id) (nearest (classes_seen methods.now.table) (method_seen file n row.now) (class_seen class))) }
{
    let key = method_key(alloc, row)?;
    Ok(nearest(methods, &key, class))
}

/// Adds that a method of a class takes the slot of the nearest virtual one above of its name and signature.
fn add_nearest<'a>(
    alloc: Global,
    rules: &mut RowRules,
    methods: &MemberIndex<'_, 'a>,
    class: ClassId,
    method: ClassId,
    row: &MethodRow<'a>,
) -> Result<(), NoMemory>
    requires sort { methods.now.sort ≡ Method }
    requires apart { AreApart (classes_seen methods.now.table) }
    ensures { OnOk result ((file n : ℕ) → Adds (for_some (λ u. takes (class_seen class) (class_seen method) u.id) (nearest (classes_seen methods.now.table) (method_seen file n row.now) (class_seen class))) rules.old rules.new) }
{
    let found = find_nearest(alloc, methods, class, row)?;
    match found {
        Some(inherited) => add_takes(rules, class, method, inherited),
        None => Ok(()),
    }
}

/// Whether a method takes the slot of one above, if there is one.
fn takes_slot(row: &MethodRow<'_>) -> bool
    ensures { result ≡ (row.now.is_virtual && not row.now.is_newslot) }
{
    row.is_virtual && !row.is_newslot
}

/// Adds that a virtual method of a class without a new slot takes that of the nearest one above.
fn add_override<'a>(
    alloc: Global,
    rules: &mut RowRules,
    methods: &MemberIndex<'_, 'a>,
    class: ClassId,
    method: ClassId,
) -> Result<(), NoMemory>
    requires sort { methods.now.sort ≡ Method }
    requires apart { AreApart (classes_seen methods.now.table) }
    ensures { OnOk result ((m : OwnMethod) → method_row methods.now.table (class_seen method) ≡ Some m → Adds (overrides (classes_seen methods.now.table) (class_seen class) m) rules.old rules.new) }
{
    match find_method(methods.table(), method) {
        Some(row) => {
            if takes_slot(row) {
                add_nearest(alloc, rules, methods, class, method, row)
            } else {
                Ok(())
            }
        }
        None => Ok(()),
    }
}

/// Adds that each virtual method of a class without a new slot takes that of the nearest one above.
pub fn add_overrides<'a>(
    alloc: Global,
    rules: &mut RowRules,
    methods: &MemberIndex<'_, 'a>,
    class: ClassId,
) -> Result<(), NoMemory>
    requires sort { methods.now.sort ≡ Method }
    requires apart { AreApart (classes_seen methods.now.table) }
    ensures { OnOk result (Adds (flat_map (overrides (classes_seen methods.now.table) (class_seen class)) (methods_of (classes_seen methods.now.table) (class_seen class))) rules.old rules.new) }
{
    let own = own_rows(methods.table(), class)?;
    for row in own.start..own.end {
        let method = ClassId {
            file: class.file,
            row,
        };
        add_override(alloc, rules, methods, class, method)?;
    }
    Ok(())
}
