//! How the types that an instruction takes are judged, and what they give (ECMA-335 III.1.5, III.1.8.1.2).

ghost use Rattle.std.specs.Prelude.{◌≡◌, map, IfOk};
ghost use Rattle.ecma_types.specs.declared.stack.StackType.TheVariants as world;
ghost use Rattle.machine.specs.Program.{Program};
ghost use Rattle.machine_typed.specs.Typing.{assignable, all_assignable, has_width, pointer_takes as may_point, accessed as accessed_as, array_takes as may_take, element_loaded as loaded_from, element_takes as may_store, loaded as loaded_as};
ghost use Rattle.place_types.specs.Types.{type_of, place_of, stack_of, stack_or_never, Agrees};
ghost use Rattle.stack_acts.specs.Acts.{meets as is_met, access_by, element_by, ElementSpelt};
ghost use Rattle.place_types.specs.Held.{cell_by, array_by, FoundSpelt};

use crate::row::{Element, Memory, Wants};
use ecma_types::lattice::Lattice;
use ecma_types::stack::{PlaceType, StackType};
use place_types::held::Held;
use place_types::sorts::is_reference;
use place_types::spelling::{is_agreeing, same_width, spelt};
use place_types::types::{ArrayFound, held, is_plain, loaded, number_type, value_type};
use plain_types::fault::NoMemory;
use std::alloc::Global;

/// Whether a reference of the type may stand where the other type is wanted, as the world has it.
fn reference_fits<T: Lattice>(
    alloc: Global,
    from: &PlaceType,
    to: &StackType,
    lattice: &T,
) -> Result<bool, NoMemory>
    ensures { (p : Program) → Agrees (T.is_assignable lattice.now) p.fits → IfOk result (λ answer. answer ≡ assignable p (stack_of (world.O from.now)) (stack_of to.now)) }
{
    match to {
        StackType::O(to) => {
            let from = StackType::O(spelt(from));
            let to = StackType::O(spelt(to));
            lattice.assignable(alloc, &from, &to)
        }
        _ => Ok(false),
    }
}

/// Whether a value of the first type may stand where the second is wanted: references as the world has it.
fn fits<T: Lattice>(
    alloc: Global,
    from: &StackType,
    to: &StackType,
    lattice: &T,
) -> Result<bool, NoMemory>
    ensures { (p : Program) → Agrees (T.is_assignable lattice.now) p.fits → IfOk result (λ answer. answer ≡ assignable p (stack_of from.now) (stack_of to.now)) }
{
    match from {
        StackType::I => Ok(matches!(to, StackType::I)),
        StackType::L => Ok(matches!(to, StackType::L)),
        StackType::H => Ok(matches!(to, StackType::H)),
        StackType::Null => Ok(matches!(to, StackType::Null | StackType::O(_))),
        StackType::O(from) => reference_fits(alloc, from, to, lattice),
        StackType::Pointer(from) => match to {
            StackType::Pointer(to) => Ok(is_agreeing(from, to)),
            _ => Ok(false),
        },
    }
}

/// The same of a type that there may not be.
#[tactic(auto, using(crate::proofs::Fits::never_fits))]
pub fn fits_some<T: Lattice>(
    alloc: Global,
    from: &StackType,
    to: &Option<StackType>,
    lattice: &T,
) -> Result<bool, NoMemory>
    ensures { (p : Program) → Agrees (T.is_assignable lattice.now) p.fits → IfOk result (λ answer. answer ≡ assignable p (stack_of from.now) (stack_or_never to.now)) }
{
    match to {
        Some(to) => fits(alloc, from, to, lattice),
        None => Ok(false),
    }
}

/// Whether each argument may stand where its parameter is.
pub fn all_fit<T: Lattice>(
    alloc: Global,
    from: &[StackType],
    to: &[PlaceType],
    lattice: &T,
) -> Result<bool, NoMemory>
    ensures { (p : Program) → Agrees (T.is_assignable lattice.now) p.fits → IfOk result (λ answer. answer ≡ all_assignable p (map stack_of from.now) (map loaded_as (map place_of to.now))) }
{
    if from.len() != to.len() {
        return Ok(false);
    }
    for i in 0..from.len() {
        let wanted = loaded(&to[i]);
        if !fits_some(alloc, &from[i], &wanted, lattice)? {
            return Ok(false);
        }
    }
    Ok(true)
}

/// Whether a type is what is wanted.
pub fn meets<T: Lattice>(
    alloc: Global,
    of: &StackType,
    wants: &Wants,
    lattice: &T,
) -> Result<bool, NoMemory>
    ensures { (p : Program) → Agrees (T.is_assignable lattice.now) p.fits → IfOk result (λ answer. answer ≡ is_met p wants.now (stack_of of.now)) }
{
    match wants {
        Wants::Anything => Ok(true),
        Wants::Fits(place) => fits_some(alloc, of, place, lattice),
        Wants::Reference => Ok(is_reference(of)),
        Wants::Int => Ok(matches!(of, StackType::I)),
        Wants::Condition => Ok(!matches!(of, StackType::H | StackType::Pointer(_))),
    }
}

/// Whether places of the type are as wide.
fn is_as_wide(of: &PlaceType, wide: Held) -> bool
    ensures { result ≡ has_width (type_of of.now) (cell_by wide) }
{
    match held(of) {
        Some(cell) => same_width(cell, wide),
        None => false,
    }
}

/// Whether a pointer to a place of the type takes the access.
pub fn pointer_takes(memory: &Memory, of: &PlaceType) -> bool
    ensures { result ≡ may_point (access_by memory.now) (type_of of.now) }
{
    match memory {
        Memory::Exact(wide) => is_as_wide(of, *wide),
        Memory::Typed(operand) => is_plain(operand) && is_agreeing(of, operand),
    }
}

/// What is loaded by the access from a place of the type, and what may be stored there.
pub fn accessed(memory: &Memory, of: &PlaceType) -> Option<StackType>
    ensures { stack_or_never result ≡ accessed_as (access_by memory.now) (type_of of.now) }
{
    match memory {
        Memory::Exact(Held::Number(integer)) => Some(number_type(*integer)),
        Memory::Exact(Held::Reference) => Some(StackType::O(*of)),
        Memory::Typed(operand) => value_type(operand),
    }
}

/// Whether an array takes the access.
pub fn array_takes<T: Lattice>(
    alloc: Global,
    element: &Element,
    found: &ArrayFound,
    lattice: &T,
) -> Result<bool, NoMemory>
    requires operand { ElementSpelt element.now }
    requires array { FoundSpelt found.now }
    ensures { (p : Program) → Agrees (T.is_assignable lattice.now) p.fits → IfOk result (λ answer. answer ≡ may_take p (element_by element.now) (array_by found.now)) }
{
    match element {
        Element::Exact(wide) => match found {
            ArrayFound::Null => Ok(true),
            ArrayFound::Of(array) => Ok(is_as_wide(&array.element, *wide)),
        },
        Element::Typed(operand) if !is_plain(&operand.element) => Ok(false),
        Element::Typed(operand) => match found {
            ArrayFound::Null => Ok(true),
            ArrayFound::Of(array) => {
                let wanted = StackType::O(operand.array);
                reference_fits(alloc, &array.array, &wanted, lattice)
            }
        },
    }
}

/// What is loaded of an array.
pub fn element_loaded(element: &Element, found: &ArrayFound) -> Option<StackType>
    ensures { stack_or_never result ≡ loaded_from (element_by element.now) (array_by found.now) }
{
    match element {
        Element::Exact(Held::Number(integer)) => Some(number_type(*integer)),
        Element::Exact(Held::Reference) => match found {
            ArrayFound::Null => Some(StackType::Null),
            ArrayFound::Of(array) => Some(StackType::O(array.element)),
        },
        Element::Typed(operand) => value_type(&operand.element),
    }
}

/// What may be stored in an array.
pub fn element_takes<T: Lattice>(
    alloc: Global,
    element: &Element,
    of: &StackType,
    lattice: &T,
) -> Result<bool, NoMemory>
    ensures { (p : Program) → Agrees (T.is_assignable lattice.now) p.fits → IfOk result (λ answer. answer ≡ may_store p (element_by element.now) (stack_of of.now)) }
{
    match element {
        Element::Exact(Held::Number(integer)) => fits(alloc, of, &number_type(*integer), lattice),
        Element::Exact(Held::Reference) => Ok(is_reference(of)),
        Element::Typed(operand) => {
            let wanted = value_type(&operand.element);
            fits_some(alloc, of, &wanted, lattice)
        }
    }
}
