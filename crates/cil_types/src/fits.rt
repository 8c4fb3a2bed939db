//! Which types of the stack are assignable to which (ECMA-335 I.8.7, III.1.8.1.2).

ghost use Rattle.std.specs.Prelude.{◌≡◌, ◌||◌, ◌&&◌, ◌<◌, IfOk};
ghost use Rattle.machine.specs.Data.{cell_of, type_eq};
ghost use Rattle.machine.specs.Program.{Program};
ghost use Rattle.machine_typed.specs.Typing.{O, P, assignable, is_refers};
ghost use Rattle.classes.specs.Queries.{array, class_of, elements_by, fits, is_object, some_eq};
ghost use Rattle.class_table.specs.Seen.{classes_seen};
ghost use Rattle.class_order.specs.Types.{AreOrdered};
ghost use Rattle.place_types.specs.Types.{stack_in};
ghost use Rattle.cil_types.specs.Rows.{FitsAs, base_in, type_in};

use crate::rows::{base_of, inside, is_agreeing, refers_inside};
use class_order::{Order, array_fits, fits};
use ecma_types::stack::{PlaceType, StackType};
use plain_types::fault::NoMemory;
use std::alloc::Global;

/// Whether places of both types inside the brackets hold references.
fn refer_inside(a: &PlaceType, b: &PlaceType) -> bool
    ensures { result ≡ (is_refers (cell_of (base_in a.now)) && is_refers (cell_of (base_in b.now))) }
{
    refers_inside(a) && refers_inside(b)
}

/// Whether arrays of more brackets fit where the type is wanted.
fn takes_arrays(order: &Order<'_, '_>, to: &PlaceType) -> bool
    requires { AreOrdered order.now }
    ensures one { to.now.ranks ≡ 0 → result ≡ (is_object (classes_seen order.now.table.now) (base_in to.now) || some_eq (class_of (classes_seen order.now.table.now) (base_in to.now)) (array (classes_seen order.now.table.now))) }
    ensures arrays { 0 < to.now.ranks → result ≡ (is_refers (cell_of (base_in to.now)) && (is_object (classes_seen order.now.table.now) (base_in to.now) || some_eq (class_of (classes_seen order.now.table.now) (base_in to.now)) (array (classes_seen order.now.table.now)))) }
{
    (to.ranks == 0 || refers_inside(to)) && array_fits(order, base_of(to))
}

/// Whether arrays of the first type fit where arrays of the second are wanted, the brackets of both aside: numbers by their width,
/// references as they fit.
fn elements_fit(
    alloc: Global,
    order: &Order<'_, '_>,
    from: &PlaceType,
    to: &PlaceType,
) -> Result<bool, NoMemory>
    requires { AreOrdered order.now }
    ensures { IfOk result (λ answer. answer ≡ (type_eq (base_in from.now) (base_in to.now) || elements_by (cell_of (base_in from.now)) (cell_of (base_in to.now)) (fits (classes_seen order.now.table.now) (base_in from.now) (base_in to.now)))) }
{
    if refer_inside(from, to) {
        fits(alloc, order, base_of(from), base_of(to))
    } else {
        Ok(is_agreeing(&inside(from), &inside(to)))
    }
}

/// Whether references of the first type fit where those of the second are wanted.
pub fn references_fit(
    alloc: Global,
    order: &Order<'_, '_>,
    from: &PlaceType,
    to: &PlaceType,
) -> Result<bool, NoMemory>
    requires { AreOrdered order.now }
    ensures { IfOk result (λ answer. answer ≡ fits (classes_seen order.now.table.now) (type_in from.now) (type_in to.now)) }
{
    let from_base = base_of(from);
    let to_base = base_of(to);
    if from.ranks < to.ranks {
        Ok(false)
    } else if to.ranks < from.ranks {
        Ok(takes_arrays(order, to))
    } else if to.ranks > 0 {
        elements_fit(alloc, order, from, to)
    } else {
        fits(alloc, order, from_base, to_base)
    }
}

/// Whether a reference fits where a type of the stack is wanted.
fn reference_fits(
    alloc: Global,
    order: &Order<'_, '_>,
    from: &PlaceType,
    to: &StackType,
) -> Result<bool, NoMemory>
    requires { AreOrdered order.now }
    ensures { IfOk result (λ answer. (p : Program) → FitsAs (classes_seen order.now.table.now) p → answer ≡ assignable p (O (type_in from.now)) (stack_in to.now)) }
{
    match to {
        StackType::O(to) => references_fit(alloc, order, from, to),
        _ => Ok(false),
    }
}

/// Whether a pointer fits where a type of the stack is wanted.
fn pointer_fits(from: &PlaceType, to: &StackType) -> bool
    ensures { (p : Program) → result ≡ assignable p (P (type_in from.now)) (stack_in to.now) }
{
    match to {
        StackType::Pointer(to) => is_agreeing(from, to),
        _ => false,
    }
}

/// Whether a value of the first type may stand where the second is wanted.
pub fn assignable(
    alloc: Global,
    order: &Order<'_, '_>,
    from: &StackType,
    to: &StackType,
) -> Result<bool, NoMemory>
    requires { AreOrdered order.now }
    ensures { IfOk result (λ answer. (p : Program) → FitsAs (classes_seen order.now.table.now) p → answer ≡ assignable p (stack_in from.now) (stack_in to.now)) }
{
    match from {
        StackType::I => Ok(matches!(to, StackType::I)),
        StackType::L => Ok(matches!(to, StackType::L)),
        StackType::H => Ok(matches!(to, StackType::H)),
        StackType::Null => Ok(matches!(to, StackType::Null | StackType::O(_))),
        StackType::O(from) => reference_fits(alloc, order, from, to),
        StackType::Pointer(from) => Ok(pointer_fits(from, to)),
    }
}
