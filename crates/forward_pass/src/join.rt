//! Two stacks where paths join: place by place, other depths are rule 52, other types rule 53.

ghost use Rattle.std.specs.Prelude.{◌≡◌, IfOk};
ghost use Rattle.ecma_types.specs.declared.stack.StackType.{StackType as WorldType};
ghost use Rattle.machine_typed.specs.Typing.{StackType as MachineType};
ghost use Rattle.code_rules.specs.Pass.{Lattice as MachineLattice, fit_all, merge_all, recorded as recorded_there};
ghost use Rattle.forward_pass.specs.Seen.{Agrees, seen_stack, seen_types, seen_there};

use crate::lowest::{OTHER_DEPTH, OTHER_TYPE};
use ecma_types::lattice::Lattice;
use ecma_types::stack::StackType;
use plain_types::fault::NoMemory;
use std::alloc::Global;

/// The same types.
pub fn copied(alloc: Global, stack: &[StackType]) -> Result<Vec<StackType>, NoMemory>
    ensures { IfOk result (λ copy. copy.items ≡ stack.now) }
{
    let mut copy = Vec::new(alloc);
    copy.extend_from_slice(stack)?;
    Ok(copy)
}

/// The types that stand for those of both stacks, or the rule that is broken.
pub fn merged<L: Lattice>(
    alloc: Global,
    there: &[StackType],
    stack: &[StackType],
    lattice: &L,
) -> Result<Result<Vec<StackType>, u8>, NoMemory>
    ensures { IfOk result (λ both. (seen : WorldType → MachineType) (l : MachineLattice) → Agrees seen (L.is_assignable lattice.now) (L.merges lattice.now) l → seen_types seen both ≡ merge_all l (seen_stack seen there.now) (seen_stack seen stack.now)) }
{
    if there.len() != stack.len() {
        return Ok(Err(OTHER_DEPTH));
    }
    let mut both = Vec::new(alloc);
    for place in 0..stack.len() {
        match lattice.merge(alloc, &there[place], &stack[place])? {
            Some(of) => both.push(of)?,
            None => return Ok(Err(OTHER_TYPE)),
        }
    }
    Ok(Ok(both))
}

/// Which rule an edge breaks that comes with a stack to types that stand.
pub fn misfit<L: Lattice>(
    alloc: Global,
    stack: &[StackType],
    there: &[StackType],
    lattice: &L,
) -> Result<Option<u8>, NoMemory>
    ensures { IfOk result (λ rule. (seen : WorldType → MachineType) (l : MachineLattice) → Agrees seen (L.is_assignable lattice.now) (L.merges lattice.now) l → rule ≡ fit_all l (seen_stack seen stack.now) (seen_stack seen there.now)) }
{
    if there.len() != stack.len() {
        return Ok(Some(OTHER_DEPTH));
    }
    for place in 0..stack.len() {
        if !lattice.assignable(alloc, &stack[place], &there[place])? {
            return Ok(Some(OTHER_TYPE));
        }
    }
    Ok(None)
}

/// The types that stand at a later offset behind an edge to it.
pub fn recorded<L: Lattice>(
    alloc: Global,
    there: Option<&Vec<StackType>>,
    stack: &[StackType],
    lattice: &L,
) -> Result<Result<Vec<StackType>, u8>, NoMemory>
    ensures { IfOk result (λ both. (seen : WorldType → MachineType) (l : MachineLattice) → Agrees seen (L.is_assignable lattice.now) (L.merges lattice.now) l → seen_types seen both ≡ recorded_there l (seen_there seen there.entry) (seen_stack seen stack.now)) }
{
    match there {
        Some(there) => merged(alloc, there, stack, lattice),
        None => Ok(Ok(copied(alloc, stack)?)),
    }
}
