//! The slots of a class: the virtual methods of its superclasses and its own, and the methods of the interfaces that it
//! implements (ECMA-335 II.10.3, II.12.2).

ghost use Rattle.std.specs.Prelude.{◌≡◌, ℕ, ◌||◌, ◌&&◌, true, Some, IfOk, map, slice_get};
ghost use Rattle.std.specs.List.{list_all};
ghost use Rattle.classes.specs.Classes.{OwnMethod};
ghost use Rattle.classes.specs.Queries.{is_or_implements};
ghost use Rattle.member_keys.specs.declared.keys.ClassId.{ClassId};
ghost use Rattle.member_keys.specs.Seen.{class_seen};
ghost use Rattle.class_table.specs.declared.rows.FileRows.{FileRows};
ghost use Rattle.class_table.specs.Seen.{classes_seen, method_row, method_seen, row_seen};
ghost use Rattle.class_rules.specs.Facts.{is_reference_class};
ghost use Rattle.class_rules.specs.Rules.{fills, is_filled, is_slot, slots_filled};
ghost use Rattle.class_slots.specs.Slots.{StandWell, slot_filled};

use crate::own::own_rows;
use class_checks::is_reference_class;
use class_queries::is_interface;
use class_reach::reached;
use class_table::{ClassRow, ClassTable, MethodRow};
use class_targets::{find_method, has_body_at};
use member_keys::ClassId;
use member_search::MemberIndex;
use plain_types::fault::NoMemory;
use std::alloc::Global;

/// Whether a method of a class or an interface is a slot of what is below it.
fn is_slot(table: &ClassTable<'_>, owner: ClassId, method: &MethodRow<'_>) -> bool
    ensures { (file n : ℕ) → result ≡ is_slot (classes_seen table.now) (class_seen owner) (method_seen file n method.now) }
{
    !method.is_static && (method.is_virtual || is_interface(table, owner))
}

/// Whether a method has a body at a class that is or implements the method's owner, if it is a slot.
fn slot_filled<'a>(
    alloc: Global,
    methods: &MemberIndex<'_, 'a>,
    class: ClassId,
    owner: ClassId,
    method: ClassId,
) -> Result<bool, NoMemory>
    requires stand { StandWell methods.now }
    requires owner { (classes_seen methods.now.table).method_owner (class_seen method) ≡ Some (class_seen owner) }
    requires implements { is_or_implements (classes_seen methods.now.table) (class_seen class) (class_seen owner) ≡ true }
    ensures { IfOk result (λ filled. (m : OwnMethod) → method_row methods.now.table (class_seen method) ≡ Some m → filled ≡ slot_filled (classes_seen methods.now.table) (class_seen class) (class_seen owner) m) }
{
    match find_method(methods.table(), method) {
        Some(row) => {
            if is_slot(methods.table(), owner, row) {
                has_body_at(alloc, methods, class, method, true)
            } else {
                Ok(true)
            }
        }
        None => Ok(true),
    }
}

/// Whether each slot of a class or an interface has a body at a class that is or implements it.
fn fills<'a>(
    alloc: Global,
    methods: &MemberIndex<'_, 'a>,
    class: ClassId,
    owner: ClassId,
) -> Result<bool, NoMemory>
    requires stand { StandWell methods.now }
    requires implements { is_or_implements (classes_seen methods.now.table) (class_seen class) (class_seen owner) ≡ true }
    ensures { IfOk result (λ filled. filled ≡ fills (classes_seen methods.now.table) (class_seen class) (class_seen owner)) }
{
    let own = own_rows(methods.table(), owner)?;
    for row in own.start..own.end {
        let method = ClassId {
            file: owner.file,
            row,
        };
        if !slot_filled(alloc, methods, class, owner, method)? {
            return Ok(false);
        }
    }
    Ok(true)
}

/// The same of several classes and interfaces.
pub fn fills_each<'a>(
    alloc: Global,
    methods: &MemberIndex<'_, 'a>,
    class: ClassId,
    owners: &[ClassId],
) -> Result<bool, NoMemory>
    requires stand { StandWell methods.now }
    requires implements { (i : ℕ) (d : ClassId) → slice_get owners.now i ≡ Some d → is_or_implements (classes_seen methods.now.table) (class_seen class) (class_seen d) ≡ true }
    ensures { IfOk result (λ filled. filled ≡ list_all (fills (classes_seen methods.now.table) (class_seen class)) (map class_seen owners.now)) }
{
    for owner in owners {
        if !fills(alloc, methods, class, *owner)? {
            return Ok(false);
        }
    }
    Ok(true)
}

/// Whether each slot of what a class reaches has a body at it.
fn is_filled<'a>(
    alloc: Global,
    methods: &MemberIndex<'_, 'a>,
    class: ClassId,
) -> Result<bool, NoMemory>
    requires { StandWell methods.now }
    ensures { IfOk result (λ filled. filled ≡ is_filled (classes_seen methods.now.table) (class_seen class)) }
{
    let owners = reached(alloc, methods.table(), class)?;
    fills_each(alloc, methods, class, owners.as_slice())
}

/// Whether slots of a class need no bodies: of an interface, and of an abstract class.
pub fn needs_none(table: &ClassTable<'_>, class: ClassId, row: &ClassRow<'_>) -> bool
    ensures { result ≡ (row.now.is_interface || (row.now.is_abstract && is_reference_class (classes_seen table.now) (class_seen class))) }
{
    row.is_interface || (row.is_abstract && is_reference_class(table, class))
}

/// Whether the slots of a class with a row have bodies, unless it is an interface or an abstract class: each virtual method
/// of the class and of those above it, and each method of the interfaces that it implements, finds one on its objects
/// (ECMA-335 II.12.2). The methods stand well: no class has two of one name and signature, and each has a body unless it is
/// abstract.
pub fn slots_filled<'a>(
    alloc: Global,
    methods: &MemberIndex<'_, 'a>,
    class: ClassId,
    row: &ClassRow<'a>,
) -> Result<bool, NoMemory>
    requires { StandWell methods.now }
    ensures { IfOk result (λ filled. (file : ℕ) (f : FileRows) → filled ≡ slots_filled (classes_seen methods.now.table) (class_seen class) (row_seen file f row.now)) }
{
    if needs_none(methods.table(), class, row) {
        Ok(true)
    } else {
        is_filled(alloc, methods, class)
    }
}
