//! What two paths that join leave on the stack (ECMA-335 III.1.8.1.3).

ghost use Rattle.std.specs.Prelude.{◌≡◌, Some, IfOk, IfSome};
ghost use Rattle.std.specs.Option.{option_map};
ghost use Rattle.machine.specs.Program.{Program};
ghost use Rattle.machine_typed.specs.Typing.{O};
ghost use Rattle.classes.specs.Queries.{class_of};
ghost use Rattle.class_rules.specs.Merge.{above_both, joined, merge, merge_others, of_classes};
ghost use Rattle.member_keys.specs.Seen.{class_seen};
ghost use Rattle.class_table.specs.Seen.{classes_seen};
ghost use Rattle.class_order.specs.Types.{AreOrdered};
ghost use Rattle.place_types.specs.Types.{stack_in, stack_of, stack_up, type_of};
ghost use Rattle.cil_types.specs.Rows.{FitsAs, HasRow, type_in};
ghost use Rattle.cil_types.specs.Spelt.{AreSpelt};

use crate::fits::assignable;
use crate::rows::base_of;
use crate::spell::{object, place_of};
use class_order::{Order, class_of, common_superclass, type_of_class};
use class_queries::is_interface;
use ecma_types::stack::{PlaceType, StackType};
use member_keys::ClassId;
use plain_types::fault::NoMemory;
use std::alloc::Global;

/// References of a class; of Object where there is none.
#[tactic(auto, using(crate::proofs::SpellLaws::class_told))]
fn references_of(order: &Order<'_, '_>, class: Option<ClassId>) -> Result<PlaceType, NoMemory>
    ensures { IfOk result (λ place. AreSpelt (classes_seen order.now.table.now) → O (type_of place) ≡ stack_up (above_both (classes_seen order.now.table.now) (option_map class_seen class))) }
{
    match class {
        Some(class) => place_of(type_of_class(order.table, class)),
        None => Ok(object()),
    }
}

/// What stands for references of two classes: those of the nearest class above both; of an interface those of Object.
fn join_two(order: &Order<'_, '_>, a: ClassId, b: ClassId) -> Result<PlaceType, NoMemory>
    requires { AreOrdered order.now }
    ensures { IfOk result (λ place. AreSpelt (classes_seen order.now.table.now) → O (type_of place) ≡ stack_up (of_classes (classes_seen order.now.table.now) (Some (class_seen a)) (Some (class_seen b)))) }
{
    if is_interface(order.table, a) || is_interface(order.table, b) {
        return Ok(object());
    }
    references_of(order, common_superclass(order.table, a, b))
}

/// What stands for references of two classes that may be there; where one isn't, those of Object.
fn join_classes(
    order: &Order<'_, '_>,
    a: Option<ClassId>,
    b: Option<ClassId>,
) -> Result<PlaceType, NoMemory>
    requires { AreOrdered order.now }
    ensures { IfOk result (λ place. AreSpelt (classes_seen order.now.table.now) → O (type_of place) ≡ stack_up (of_classes (classes_seen order.now.table.now) (option_map class_seen a) (option_map class_seen b))) }
{
    match (a, b) {
        (Some(a), Some(b)) => join_two(order, a, b),
        _ => Ok(object()),
    }
}

/// The class of objects of the type; `None` of arrays.
fn class_in(order: &Order<'_, '_>, of: &PlaceType) -> Option<ClassId>
    requires { AreOrdered order.now }
    ensures { option_map class_seen result ≡ class_of (classes_seen order.now.table.now) (type_in of.now) }
{
    let base = base_of(of);
    if of.ranks > 0 {
        None
    } else {
        class_of(order, base)
    }
}

/// What stands for references of two types of which neither fits where the other is wanted.
fn join(order: &Order<'_, '_>, a: &PlaceType, b: &PlaceType) -> Result<PlaceType, NoMemory>
    requires { AreOrdered order.now }
    ensures { IfOk result (λ place. AreSpelt (classes_seen order.now.table.now) → O (type_of place) ≡ stack_up (joined (classes_seen order.now.table.now) (type_in a.now) (type_in b.now))) }
{
    let a_base = base_of(a);
    let b_base = base_of(b);
    if a.ranks > 0 && b.ranks > 0 {
        references_of(order, order.basic.array)
    } else {
        join_classes(order, class_in(order, a), class_in(order, b))
    }
}

/// What stands for both, where neither may stand for the other.
fn join_others(
    order: &Order<'_, '_>,
    a: &StackType,
    b: &StackType,
) -> Result<Option<StackType>, NoMemory>
    requires { AreOrdered order.now }
    ensures { IfOk result (λ both. AreSpelt (classes_seen order.now.table.now) → option_map stack_of both ≡ option_map stack_up (merge_others (classes_seen order.now.table.now) (stack_in a.now) (stack_in b.now))) }
{
    match (a, b) {
        (StackType::O(a), StackType::O(b)) => Ok(Some(StackType::O(join(order, a, b)?))),
        _ => Ok(None),
    }
}

/// The type that stands for both where two paths join, and `None` where there is none: the first to which the other is assignable; of
/// other references those of the nearest class above both, of arrays System.Array, or Object. What it is holds where the classes' kinds
/// have spellings; and its class has a row where those of both types have.
pub fn merge(
    alloc: Global,
    order: &Order<'_, '_>,
    a: &StackType,
    b: &StackType,
) -> Result<Option<StackType>, NoMemory>
    requires { AreOrdered order.now }
    ensures merged { IfOk result (λ both. AreSpelt (classes_seen order.now.table.now) → (p : Program) → FitsAs (classes_seen order.now.table.now) p → option_map stack_in both ≡ merge p (classes_seen order.now.table.now) (stack_in a.now) (stack_in b.now)) }
    ensures row { IfOk result (λ both. AreSpelt (classes_seen order.now.table.now) → HasRow a.now → HasRow b.now → IfSome both HasRow) }
{
    if assignable(alloc, order, b, a)? {
        return Ok(Some(*a));
    }
    if assignable(alloc, order, a, b)? {
        return Ok(Some(*b));
    }
    let both = join_others(order, a, b)?;
    Ok(both)
}
