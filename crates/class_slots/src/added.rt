//! What a class adds to the nearest class above it of which objects are made: of usual files it is the class itself and its
//! own interfaces.

ghost use Rattle.std.specs.Prelude.{◌≡◌, ℕ, IfOk, Some, true};
ghost use Rattle.std.specs.Option.{option_map};
ghost use Rattle.machine.specs.Data.{Id};
ghost use Rattle.classes.specs.Classes.{Class, Classes};
ghost use Rattle.member_keys.specs.Seen.{class_seen};
ghost use Rattle.class_table.specs.declared.rows.FileRows.{FileRows};
ghost use Rattle.class_table.specs.Seen.{classes_seen, row_seen};
ghost use Rattle.class_rules.specs.Rules.{slots_filled};
ghost use Rattle.class_slots.specs.Added.{GoUp, added_filled, adds_filled, has_objects, made_above, made_from};
ghost use Rattle.class_slots.specs.Slots.{AreOwned, StandWell};

use crate::slots::{fills_each, needs_none};
use class_queries::{find_class, superclass};
use class_reach::reached_until;
use class_table::{ClassRow, ClassTable};
use member_keys::ClassId;
use member_search::MemberIndex;
use plain_types::fault::NoMemory;
use std::alloc::Global;

/// Whether objects are made of a class.
#[tactic(auto, using(crate::proofs::MadeLaws::objects_found))]
fn has_objects(table: &ClassTable<'_>, class: ClassId) -> bool
    ensures { result ≡ has_objects (classes_seen table.now) (class_seen class) }
{
    match find_class(table, class) {
        Some(row) => !needs_none(table, class, row),
        None => false,
    }
}

/// The nearest class from a class upwards of which objects are made.
fn made_from(table: &ClassTable<'_>, class: ClassId) -> Option<ClassId>
    ensures { option_map class_seen result ≡ made_from (classes_seen table.now) (class_seen class) }
{
    let mut class = class;
    let mut left = table.size;
    'up: loop {
        if has_objects(table, class) {
            return Some(class);
        }
        if left == 0 {
            return None;
        }
        class = superclass(table, class)?;
        left -= 1;
    }
}

/// The nearest class above a class of which objects are made.
fn made_above(table: &ClassTable<'_>, class: ClassId) -> Option<ClassId>
    ensures { option_map class_seen result ≡ made_above (classes_seen table.now) (class_seen class) }
{
    match superclass(table, class) {
        Some(above) => made_from(table, above),
        None => None,
    }
}

/// Whether each slot of what a class adds has a body at it.
fn adds_filled<'a>(
    alloc: Global,
    methods: &MemberIndex<'_, 'a>,
    class: ClassId,
) -> Result<bool, NoMemory>
    requires { StandWell methods.now }
    ensures { IfOk result (λ filled. filled ≡ adds_filled (classes_seen methods.now.table) (class_seen class)) }
{
    let top = made_above(methods.table(), class);
    let owners = reached_until(alloc, methods.table(), class, top)?;
    fills_each(alloc, methods, class, owners.as_slice())
}

/// Whether the slots have bodies that a class with a row adds to the nearest class above it of which objects are made, unless
/// it is an interface or an abstract class itself (ECMA-335 II.12.2): its own methods, those of the abstract classes between,
/// and those of the interfaces that these and it implement. Where this holds of each class, each has bodies for all its slots.
/// In the time of the rows of these classes and interfaces: classes below many abstract ones that stand one above the other
/// take the time of all these, each of them.
pub fn added_filled<'a>(
    alloc: Global,
    methods: &MemberIndex<'_, 'a>,
    class: ClassId,
    row: &ClassRow<'a>,
) -> Result<bool, NoMemory>
    requires { StandWell methods.now }
    ensures { IfOk result (λ filled. (file : ℕ) (f : FileRows) → filled ≡ added_filled (classes_seen methods.now.table) (class_seen class) (row_seen file f row.now)) }
{
    if needs_none(methods.table(), class, row) {
        Ok(true)
    } else {
        adds_filled(alloc, methods, class)
    }
}

/// Where each class has bodies for the slots that it adds, each has them for all its slots, in classes of which no way up goes
/// in a circle: by induction up the superclasses, since what a slot finds at the nearest class above of which objects are made,
/// it finds below as well, unless a class on the way has a method for it, of which a slot is tested itself.
pub fn added_are_all()
    ensures { (cs : Classes) → AreOwned cs → GoUp cs → ((c : Id) (k : Class) → cs.class c ≡ Some k → added_filled cs c k ≡ true) → (c : Id) (k : Class) → cs.class c ≡ Some k → slots_filled cs c k ≡ true }
{}
