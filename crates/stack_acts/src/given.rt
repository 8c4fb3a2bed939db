//! What an instruction gives for the types that it takes.

ghost use Rattle.std.specs.Prelude.{◌≡◌, Some, [], ◌∷◌, ◌++◌, IfOk, map};
ghost use Rattle.std.specs.Option.{option_map};
ghost use Rattle.machine.specs.Program.{Program};
ghost use Rattle.machine.specs.Throw.{on_some};
ghost use Rattle.machine_typed.specs.Typing.{all_assignable, when, loaded as loaded_as, compares_references as may_compare, branches_on_references as may_branch};
ghost use Rattle.classes.specs.Queries.{listed};
ghost use Rattle.place_types.specs.Types.{stack_of, place_of, Agrees};
ghost use Rattle.stack_acts.specs.Acts.{gives_by, types_given, single_by, pair_by, store_by, one_of, two_of, three_of, ElementSpelt, PairSpelt, IsSpelt};
ghost use Rattle.place_types.specs.Held.{IsArrayOf};
ghost use Rattle.stack_acts.specs.declared.row.Pair.TheVariants as pair;
ghost use Rattle.stack_acts.specs.declared.row.Single.TheVariants as single;

use crate::judge::{
    accessed, all_fit, array_takes, element_loaded, element_takes, fits_some, meets, pointer_takes,
};
use crate::row::{Act, Element, Given, Memory, Pair, Single};
use cil_opcodes::shape::Comparison;
use ecma_types::lattice::Lattice;
use ecma_types::stack::{PlaceType, StackType};
use place_types::held::ArrayOperand;
use place_types::sorts::{binary, is_compared, is_int, shift, unary};
use place_types::types::{array_found, loaded, number_type, pointee};
use plain_types::fault::NoMemory;
use std::alloc::Global;

/// The one type that is taken.
fn single(taken: &[StackType]) -> Option<StackType>
    ensures { result ≡ one_of taken.now }
{
    if taken.len() == 1 {
        Some(taken[0])
    } else {
        None
    }
}

/// The two types that are taken.
fn pair(taken: &[StackType]) -> Option<(StackType, StackType)>
    ensures { result ≡ two_of taken.now }
{
    if taken.len() == 2 {
        Some((taken[0], taken[1]))
    } else {
        None
    }
}

/// The three types that are taken.
fn triple(taken: &[StackType]) -> Option<(StackType, StackType, StackType)>
    ensures { result ≡ three_of taken.now }
{
    if taken.len() == 3 {
        Some((taken[0], taken[1], taken[2]))
    } else {
        None
    }
}

/// The type is given, if there is one.
fn some_given(of: Option<StackType>) -> Option<Given>
    ensures { option_map types_given result ≡ on_some (option_map stack_of of) (λ t. Some (t ∷ [])) }
{
    match of {
        Some(of) => Some(Given::Single(Some(of))),
        None => None,
    }
}

/// What is given, if the test holds.
fn given_when(test: bool, given: Given) -> Option<Given>
    ensures { option_map types_given result ≡ when test (Some (types_given given)) }
{
    if test { Some(given) } else { None }
}

/// What a load through a pointer gives.
fn load_indirect(memory: &Memory, x: &StackType) -> Option<Given>
    ensures { option_map types_given result ≡ single_by (single.LoadIndirect memory.now) (stack_of x.now) }
{
    match x {
        StackType::Pointer(of) => {
            let given = Given::Single(accessed(memory, of));
            given_when(pointer_takes(memory, of), given)
        }
        _ => None,
    }
}

/// What one type gives.
fn single_gives(act: &Single, x: &StackType) -> Option<Given>
    ensures { option_map types_given result ≡ single_by act.now (stack_of x.now) }
{
    match act {
        Single::Duplicate => Some(Given::Twice(*x)),
        Single::Unary => some_given(unary(x)),
        Single::Convert(integer) => match unary(x) {
            Some(_) => Some(Given::Single(Some(number_type(*integer)))),
            None => None,
        },
        Single::LoadIndirect(memory) => load_indirect(memory, x),
        Single::LoadLength => match array_found(x) {
            Some(_) => Some(Given::Single(Some(StackType::I))),
            None => None,
        },
    }
}

/// What a store through a pointer gives.
fn store_indirect<T: Lattice>(
    alloc: Global,
    memory: &Memory,
    x: &StackType,
    value: &StackType,
    lattice: &T,
) -> Result<Option<Given>, NoMemory>
    ensures { (p : Program) → Agrees (T.is_assignable lattice.now) p.fits → IfOk result (λ given. option_map types_given given ≡ pair_by p (pair.StoreIndirect memory.now) (stack_of x.now) (stack_of value.now)) }
{
    match x {
        StackType::Pointer(of) if pointer_takes(memory, of) => {
            let wanted = accessed(memory, of);
            let fits = fits_some(alloc, value, &wanted, lattice)?;
            Ok(given_when(fits, Given::Nothing))
        }
        _ => Ok(None),
    }
}

/// What a load of an element gives.
fn load_element<T: Lattice>(
    alloc: Global,
    element: &Element,
    x: &StackType,
    index: &StackType,
    lattice: &T,
) -> Result<Option<Given>, NoMemory>
    requires { ElementSpelt element.now }
    ensures { (p : Program) → Agrees (T.is_assignable lattice.now) p.fits → IfOk result (λ given. option_map types_given given ≡ pair_by p (pair.LoadElement element.now) (stack_of x.now) (stack_of index.now)) }
{
    match array_found(x) {
        Some(found) if is_int(index) => {
            let takes = array_takes(alloc, element, &found, lattice)?;
            let given = Given::Single(element_loaded(element, &found));
            Ok(given_when(takes, given))
        }
        _ => Ok(None),
    }
}

/// What the address of an element gives.
fn load_element_address<T: Lattice>(
    alloc: Global,
    operand: &ArrayOperand,
    x: &StackType,
    index: &StackType,
    lattice: &T,
) -> Result<Option<Given>, NoMemory>
    requires { IsArrayOf operand.now.element operand.now.array }
    ensures { (p : Program) → Agrees (T.is_assignable lattice.now) p.fits → IfOk result (λ given. option_map types_given given ≡ pair_by p (pair.LoadElementAddress operand.now) (stack_of x.now) (stack_of index.now)) }
{
    match array_found(x) {
        Some(found) if is_int(index) => {
            let takes = array_takes(alloc, &Element::Typed(*operand), &found, lattice)?;
            let given = Given::Single(Some(StackType::Pointer(pointee(&operand.element))));
            Ok(given_when(takes, given))
        }
        _ => Ok(None),
    }
}

/// What a store of an element gives.
fn store_element<T: Lattice>(
    alloc: Global,
    element: &Element,
    types: (StackType, StackType, StackType),
    lattice: &T,
) -> Result<Option<Given>, NoMemory>
    requires { ElementSpelt element.now }
    ensures { (p : Program) → Agrees (T.is_assignable lattice.now) p.fits → IfOk result (λ given. option_map types_given given ≡ store_by p element.now (stack_of types.0) (stack_of types.1) (stack_of types.2)) }
{
    let (x, index, value) = types;
    match array_found(&x) {
        Some(found) if is_int(&index) => {
            let takes = array_takes(alloc, element, &found, lattice)?;
            let fits = element_takes(alloc, element, &value, lattice)?;
            Ok(given_when(takes && fits, Given::Nothing))
        }
        _ => Ok(None),
    }
}

/// Whether the comparison takes references.
fn compares_references(comparison: Comparison) -> bool
    ensures { result ≡ may_compare comparison }
{
    matches!(comparison, Comparison::Equal | Comparison::GreaterUnsigned)
}

/// Whether a branch by the comparison takes references.
fn branches_on_references(comparison: Comparison) -> bool
    ensures { result ≡ may_branch comparison }
{
    matches!(comparison, Comparison::Equal)
}

/// What two types give.
fn pair_gives<T: Lattice>(
    alloc: Global,
    act: &Pair,
    x: &StackType,
    y: &StackType,
    lattice: &T,
) -> Result<Option<Given>, NoMemory>
    requires { PairSpelt act.now }
    ensures { (p : Program) → Agrees (T.is_assignable lattice.now) p.fits → IfOk result (λ given. option_map types_given given ≡ pair_by p act.now (stack_of x.now) (stack_of y.now)) }
{
    match act {
        Pair::Binary => Ok(some_given(binary(x, y))),
        Pair::Shift => Ok(some_given(shift(x, y))),
        Pair::Compare(comparison) => {
            let is_so = is_compared(compares_references(*comparison), x, y);
            Ok(given_when(is_so, Given::Single(Some(StackType::I))))
        }
        Pair::BranchCompare(comparison) => {
            let is_so = is_compared(branches_on_references(*comparison), x, y);
            Ok(given_when(is_so, Given::Nothing))
        }
        Pair::StoreIndirect(memory) => store_indirect(alloc, memory, x, y, lattice),
        Pair::LoadElement(element) => load_element(alloc, element, x, y, lattice),
        Pair::LoadElementAddress(operand) => load_element_address(alloc, operand, x, y, lattice),
    }
}

/// What the arguments of a method give.
fn call_gives<T: Lattice>(
    alloc: Global,
    this: &Option<PlaceType>,
    params: &[PlaceType],
    taken: &[StackType],
    lattice: &T,
) -> Result<bool, NoMemory>
    ensures { (p : Program) → Agrees (T.is_assignable lattice.now) p.fits → IfOk result (λ answer. answer ≡ all_assignable p (map stack_of taken.now) (map loaded_as (map place_of (listed this.now ++ params.now)))) }
{
    match this {
        None => all_fit(alloc, taken, params, lattice),
        Some(_) if taken.is_empty() => Ok(false),
        Some(this) => {
            let wanted = loaded(this);
            let fits = fits_some(alloc, &taken[0], &wanted, lattice)?;
            Ok(fits && all_fit(alloc, &taken[1..], params, lattice)?)
        }
    }
}

/// What is given for the types that are taken, the topmost one last; none where one of them is wrong.
pub fn gives<T: Lattice>(
    alloc: Global,
    act: &Act<'_>,
    taken: &[StackType],
    lattice: &T,
) -> Result<Option<Given>, NoMemory>
    requires { IsSpelt act.now }
    ensures { (p : Program) → Agrees (T.is_assignable lattice.now) p.fits → IfOk result (λ given. option_map types_given given ≡ gives_by p act.now (map stack_of taken.now)) }
{
    match act {
        Act::Zero(given) => Ok(if taken.is_empty() { *given } else { None }),
        Act::One(wants, given) => match single(taken) {
            Some(x) => Ok(given_when(meets(alloc, &x, wants, lattice)?, *given)),
            None => Ok(None),
        },
        Act::Two(first, second) => match pair(taken) {
            Some((x, y)) => {
                let first = meets(alloc, &x, first, lattice)?;
                let second = meets(alloc, &y, second, lattice)?;
                Ok(given_when(first && second, Given::Nothing))
            }
            None => Ok(None),
        },
        Act::Single(act) => match single(taken) {
            Some(x) => Ok(single_gives(act, &x)),
            None => Ok(None),
        },
        Act::Pair(act) => match pair(taken) {
            Some((x, y)) => pair_gives(alloc, act, &x, &y, lattice),
            None => Ok(None),
        },
        Act::StoreElement(element) => match triple(taken) {
            Some(types) => store_element(alloc, element, types, lattice),
            None => Ok(None),
        },
        Act::Call {
            this,
            params,
            gives,
        } => {
            let fits = call_gives(alloc, this, params, taken, lattice)?;
            Ok(given_when(fits, *gives))
        }
        Act::New {
            class,
            this,
            params,
        } => {
            let object = StackType::O(*class);
            let wanted = loaded(this);
            let fits = fits_some(alloc, &object, &wanted, lattice)?;
            let others = all_fit(alloc, taken, params, lattice)?;
            Ok(given_when(fits && others, Given::Single(Some(object))))
        }
    }
}
